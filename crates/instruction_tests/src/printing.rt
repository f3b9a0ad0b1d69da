// What a value is printed as.
use std::fmt;
use std::process::Abort;
use std::test::Fail;

pub(crate) fn prints(
    rt: &(impl Abort + AllocGlobal),
    value: &impl fmt::Display,
    text: &str,
) -> Result<(), Fail> {
    let said = value.to_string(rt.alloc())?;
    assert_eq!(rt; said.as_str(), text);
    Ok(())
}
