//! Theorems of the heap's definitions. Nothing here runs.
#![tactic(auto)]

ghost use Rattle.theory.specs.ImageExample.{ImageIsAccepted, ImageIsAStart, ObjectsOfTheImage, RoundTripAnswers};
ghost use Rattle.theory.specs.RestoreChecks.{AcceptedIfNoneFails, LengthIsOfNoMatter};
ghost use Rattle.theory.specs.SpoiltImages.{OnePageWouldNotBeSealedInTime, UnsealedWouldNotRestoreItsMoment, OtherPageSizeWouldNotBeWrittenAgain, OtherPagesOfAHalfWouldNotBeWrittenAgain, OtherLayoutWouldNotBeWrittenAgain, Half2WouldNotBeWrittenAgain, TooManyWordsWouldAnswerOtherwise, Kind3WouldNotBeWrittenAgain, NilWithPayloadWouldNotBeWrittenAgain, UnusedWordWouldNotBeWrittenAgain};
ghost use Rattle.theory.specs.SpoiltImages.{EvenWordAmongTheCopiedWouldNotBeCopied, CutCopiedObjectWouldAnswerOtherwise, EvenWordAmongTheNewWouldNotBeCopied, CutNewObjectWouldAnswerOtherwise, CopiedSlotAstrayWouldAnswerOtherwise, NewSlotAstrayWouldAnswerOtherwise, RegisterAstrayWouldAnswerOtherwise};
ghost use Rattle.theory.specs.Mutating.{MutatorsAnswerAsIfNothingMoved};
ghost use Rattle.theory.specs.Theorems.{RunsAgree, AllCollect, StepsBounded, AllRepeat, AllSealed, AllAgain, AllRestore, AllTrap};
ghost use Rattle.theory.specs.Promises.{HeapsKeepTheirPromises, HeapsAnswerAsIfNothingMoved, CollectionsCopyTheReached, CallsGoOn, AllImagesAreSealed, AllImagesRestoreTheirMoment, AllRestoredHeapsWriteTheirImage};

/// Heaps keep their promises, over all lists of calls that begin at MAKE or at RESTORE of an image.
pub fn promises_kept()
    ensures { HeapsKeepTheirPromises }
{}

/// To the mutators' calls the moving heap answers as if nothing moved.
pub fn mutators_answered()
    ensures { MutatorsAnswerAsIfNothingMoved }
{}

/// To every list of calls the moving heap answers as if nothing moved.
pub fn calls_answered()
    ensures { HeapsAnswerAsIfNothingMoved }
{}

/// A collection copies exactly what FLIP's registers reached.
pub fn reached_copied()
    ensures { CollectionsCopyTheReached }
{}

/// A call whose fault was resolved goes on.
pub fn resolved_calls_go_on()
    ensures { CallsGoOn }
{}

/// An image is sealed no later than at the accepted SAVE with the number of a half's pages.
pub fn images_sealed()
    ensures { AllImagesAreSealed }
{}

/// A sealed image restores the contents of the heap at its MARK.
pub fn images_restored()
    ensures { AllImagesRestoreTheirMoment }
{}

/// A restored heap writes its image again.
pub fn images_written_again()
    ensures { AllRestoredHeapsWriteTheirImage }
{}

/// The theorems of the closed form of the definitions, over all lists of calls that begin at MAKE.
pub fn closed_form_proved()
    ensures answers { RunsAgree }
    ensures collections { AllCollect }
    ensures steps { StepsBounded }
    ensures repeats { AllRepeat }
    ensures sealed { AllSealed }
    ensures again { AllAgain }
    ensures restored { AllRestore }
    ensures traps { AllTrap }
{}

/// The never-moving heap of a small image is computed on the definitions.
pub fn image_heap_computed()
    ensures accepted { ImageIsAccepted }
    ensures start { ImageIsAStart }
    ensures objects { ObjectsOfTheImage }
    ensures answers { RoundTripAnswers }
{}

/// RESTORE's checks one by one: an image is accepted if and only if it fails none. The length's alone is of no matter to the
/// promises.
pub fn restore_checks_listed()
    ensures listed { AcceptedIfNoneFails }
    ensures length { LengthIsOfNoMatter }
{}

/// Images that fail one check alone of those on sizes, single words, registers and unused words, and the promise that each heap
/// made of one would break.
pub fn spoilt_images_computed()
    ensures one_page { OnePageWouldNotBeSealedInTime }
    ensures unsealed { UnsealedWouldNotRestoreItsMoment }
    ensures page_size { OtherPageSizeWouldNotBeWrittenAgain }
    ensures half_pages { OtherPagesOfAHalfWouldNotBeWrittenAgain }
    ensures layout { OtherLayoutWouldNotBeWrittenAgain }
    ensures half { Half2WouldNotBeWrittenAgain }
    ensures words { TooManyWordsWouldAnswerOtherwise }
    ensures kind { Kind3WouldNotBeWrittenAgain }
    ensures nil { NilWithPayloadWouldNotBeWrittenAgain }
    ensures unused { UnusedWordWouldNotBeWrittenAgain }
{}

/// The same for the checks on objects and references.
pub fn spoilt_objects_computed()
    ensures even_copied { EvenWordAmongTheCopiedWouldNotBeCopied }
    ensures cut_copied { CutCopiedObjectWouldAnswerOtherwise }
    ensures even_new { EvenWordAmongTheNewWouldNotBeCopied }
    ensures cut_new { CutNewObjectWouldAnswerOtherwise }
    ensures copied_astray { CopiedSlotAstrayWouldAnswerOtherwise }
    ensures new_astray { NewSlotAstrayWouldAnswerOtherwise }
    ensures register_astray { RegisterAstrayWouldAnswerOtherwise }
{}
