use std::alloc::{AllocError, Global};

/// What a slot or a register holds; an object by its place in the list of objects.
#[derive(Clone, Copy, PartialEq, Eq)]
pub enum Item {
    Nil,
    Number(u32),
    Object(u32),
}

impl Item {
    pub fn is_number(self) -> bool {
        matches!(self, Item::Number(_))
    }

    pub fn is_object(self) -> bool {
        matches!(self, Item::Object(_))
    }
}

/// How many slots an object has, and how many of them, the first ones, are for references.
#[derive(Clone, Copy, Default)]
pub struct Shape {
    pub references: u32,
    pub slots: u32,
}

impl Shape {
    pub fn words(self) -> u32 {
        self.slots.saturating_add(1)
    }
}

#[derive(Clone, Drop)]
struct Object {
    references: u32,
    slots: Vec<Item>,
}

impl Object {
    fn shape(&self) -> Shape {
        Shape {
            references: self.references,
            slots: small(self.slots.len()),
        }
    }
}

/// Objects that never move, in the order they were made in.
#[derive(Clone, Drop)]
pub struct Objects {
    objects: Vec<Object>,
}

impl Objects {
    pub fn none(heap: Global) -> Objects {
        Objects {
            objects: Vec::new(heap),
        }
    }

    pub fn count(&self) -> usize {
        self.objects.len()
    }

    pub fn shape(&self, object: u32) -> Shape {
        match self.objects.get(object as usize) {
            Some(found) => found.shape(),
            None => Shape::default(),
        }
    }

    /// What the slots of an object hold.
    pub fn slots(&self, object: u32) -> &[Item] {
        match self.objects.get(object as usize) {
            Some(found) => found.slots.as_slice(),
            None => &[],
        }
    }

    /// What a slot of an object holds.
    pub fn slot(&self, object: u32, slot: u32) -> Item {
        self.slots(object)
            .get(slot as usize)
            .copied()
            .unwrap_or(Item::Nil)
    }

    pub fn set_slot(&mut self, object: u32, slot: u32, item: Item) {
        if let Some(found) = self.objects.get_mut(object as usize) {
            if let Some(held) = found.slots.get_mut(slot as usize) {
                *held = item;
            }
        }
    }

    /// Makes an object, and gives its place in the list.
    pub fn make(&mut self, heap: Global, references: u32, numbers: u32) -> Result<u32, AllocError> {
        let place = small(self.objects.len());
        let mut slots = vec![in heap; Item::Nil; references as usize]?;
        slots.resize(references.saturating_add(numbers) as usize, Item::Number(0))?;
        self.objects.push(Object { references, slots })?;
        Ok(place)
    }
}

/// A length as a number of 32 bits.
fn small(length: usize) -> u32 {
    u32::try_from(length).unwrap_or(u32::MAX)
}

/// How an object is reached: from a register, or from a slot of another object.
#[derive(Clone, Copy)]
pub enum Route {
    Register(u32),
    Slot { object: u32, slot: u32 },
}

/// What registers reach, directly or through slots.
#[derive(Drop)]
pub struct Reached {
    /// The objects, those nearer to the registers first.
    pub order: Vec<u32>,
    /// How each object of the list is reached, if it is.
    routes: Vec<Option<Route>>,
    /// The words of those that registers hold.
    pub held_words: u32,
    /// The words of all of them.
    pub words: u32,
}

impl Reached {
    pub fn route(&self, object: u32) -> Option<Route> {
        self.routes.get(object as usize).copied().flatten()
    }

    // Notes that an item is reached by a route.
    fn note(&mut self, objects: &Objects, item: Item, route: Route) -> Result<(), AllocError> {
        let Item::Object(object) = item else {
            return Ok(());
        };
        if self.route(object).is_some() {
            return Ok(());
        }
        if let Some(known) = self.routes.get_mut(object as usize) {
            *known = Some(route);
        }
        self.words = self.words.saturating_add(objects.shape(object).words());
        self.order.push(object)?;
        Ok(())
    }

    // Notes what the slots of an object hold.
    fn note_slots(&mut self, objects: &Objects, object: u32) -> Result<(), AllocError> {
        let held = objects.slots(object);
        for (slot, item) in (0..u32::MAX).zip(held.iter()) {
            self.note(objects, *item, Route::Slot { object, slot })?;
        }
        Ok(())
    }
}

/// What registers reach.
pub fn reach_from(
    heap: Global,
    objects: &Objects,
    registers: &[Item; 32],
) -> Result<Reached, AllocError> {
    let mut found = Reached {
        order: Vec::new(heap),
        routes: vec![in heap; None; objects.count()]?,
        held_words: 0,
        words: 0,
    };
    for (k, item) in (0..32u32).zip(registers.iter()) {
        found.note(objects, *item, Route::Register(k))?;
    }
    found.held_words = found.words;
    // An index loop, for the list grows while it is read, which an iterator over it would not allow.
    for k in 0..objects.count() {
        let Some(object) = found.order.get(k).copied() else {
            break;
        };
        found.note_slots(objects, object)?;
    }
    Ok(found)
}
