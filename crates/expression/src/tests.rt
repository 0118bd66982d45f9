// Texts that are read and texts that are refused, values, and an expression that is written.
use crate::expression::Expression;
use crate::fault::Fault;
use std::test::Fail;
use watch::MarkSet;

// The number under which the text is refused, if it is.
fn refusal(text: &[u8]) -> Option<u8> {
    Expression::blank().read(text).err().map(Fault::number)
}

#[test]
fn texts_are_read_or_refused(rt: HostRuntime) {
    let table: [(&[u8], Option<u8>); 14] = [
        (b"implies 0 not 7", None),
        (b"implies 0 not 7\n", None),
        (b"and and and and and and and 1 2 3 4 5 6 7 999999", None),
        (b"and 1", Some(18)),
        (b"01", Some(18)),
        (b"1000000", Some(18)),
        (b"1 1", Some(18)),
        (b"not and and and and and and and 1 2 3 4 5 6 7 8", Some(18)),
        (b"1  1", Some(11)),
        (b"not\t1", Some(11)),
        (b"1 ", Some(11)),
        (b"1\n\n", Some(11)),
        (b"", Some(11)),
        (b"\n", Some(11)),
    ];
    for (text, number) in table {
        assert!(rt; refusal(text) == number);
    }
}

#[test]
fn values_follow_the_marks(rt: HostRuntime) {
    let mut expression = Expression::blank();
    assert!(rt; expression.read(b"or 1 not 2").is_ok());
    assert!(rt; expression.value(MarkSet::EMPTY));
    assert!(rt; expression.value(MarkSet { bits: 3 }));
    assert!(rt; !expression.value(MarkSet { bits: 1 }));
    assert!(rt; !expression.truths()[1]);
}

#[test]
fn a_refused_text_changes_nothing(rt: HostRuntime) -> Result<(), Fail> {
    let mut expression = Expression::blank();
    assert!(rt; expression.read(b"or 1 not 2\n").is_ok());
    assert!(rt; expression.read(b"or 1").is_err());
    let written = format!(in rt.alloc(); "{expression}")?;
    assert!(rt; written.as_str() == "or 1 not 2");
    Ok(())
}
