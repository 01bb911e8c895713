#![tactic(auto)]

pub mod layout_rules;
pub mod split_layout;
pub mod tagged_layout;
pub mod values;

pub use layout_rules::Layout;
pub use split_layout::Split;
pub use tagged_layout::Tagged;
pub use values::Value;

#[cfg(test)]
mod tests {
    use super::{Layout, Split, Tagged, Value};
    use memory::Refusal;

    #[test]
    fn numbers(rt: HostRuntime) {
        assert!(rt; matches!(Tagged.pack(5, 1, Value::Number(5)), Ok(11)));
        assert!(rt; matches!(Tagged.pack(5, 1, Value::Number(2147483647)), Ok(4294967295)));
        assert!(rt;
            matches!(
                Tagged.pack(5, 1, Value::Number(2147483648)),
                Err(Refusal::Misfit)
            )
        );
        assert!(rt; !Tagged.admits(5, 1, Value::Number(2147483648)));
        assert!(rt;
            matches!(
                Split.pack(515, 1, Value::Number(2147483648)),
                Ok(2147483648)
            )
        );
    }

    #[test]
    fn headers(rt: HostRuntime) {
        assert!(rt; matches!(Tagged.header(1, 1), Ok(5)));
        assert!(rt; matches!(Split.header(1, 1), Ok(515)));
        assert!(rt; matches!(Tagged.header(200, 56), Err(Refusal::Shape)));
        assert!(rt; matches!(Tagged.header(200, 55), Ok(511)));
        assert!(rt; matches!(Split.header(200, 56), Err(Refusal::Shape)));
        assert!(rt; matches!(Split.header(200, 55), Ok(28561)));
        assert!(rt; matches!(Split.slots(512), None));
    }
}
