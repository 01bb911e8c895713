//! What both programs show: hosts of every kind, and a tariff on heaps over them.
#![tactic(auto)]

pub mod calls;
pub mod heaps;
pub mod hosts;
pub mod lines;

pub use calls::CALLS;
pub use heaps::{Lists, show_heaps};
pub use hosts::{check_host, pile, small_pages, table_host, words};
pub use lines::Line;

#[cfg(test)]
mod tests {
    use super::{check_host, pile, small_pages, table_host, words};

    #[test]
    fn hosts_are_made(rt: HostRuntime) {
        assert!(rt; words(rt.alloc(), 198).is_ok());
        assert!(rt; check_host(rt.alloc(), 8, 32).is_ok());
        assert!(rt; table_host(rt.alloc(), 16, 16).is_ok());
        assert!(rt; small_pages(rt.alloc(), 8, 32).is_ok());
        assert!(rt; pile(rt.alloc(), 16).is_ok());
    }
}
