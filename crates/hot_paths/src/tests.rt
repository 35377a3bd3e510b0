//! Lines that were worked out by hand.

use crate::command::Command;
use crate::run;
use std::alloc::{AllocError, Global};
use std::test::Fail;

/// The line that answers a command line. `None` where its words are no command.
fn answer(alloc: Global, line: &str) -> Result<Option<String>, AllocError> {
    let mut words = Vec::new(alloc);
    for word in line.split_whitespace() {
        words.push(String::from_str(alloc, word)?)?;
    }
    match Command::from_words(&words) {
        Some(command) => Ok(Some(run(alloc, &command)?)),
        None => Ok(None),
    }
}

#[test]
fn each_operation_is_made_as_often_as_asked(rt: HostRuntime) -> Result<(), Fail> {
    // The first fractions are 387/77, 196/871 and 17/398. Their sums are 352169/67067 and 92815/346658, and their products
    // 10836/9581 and 1666/173329.
    let lines = [
        ("exchanges 22", "exchanges 22"),
        ("additions 2", "additions 2 total 858709"),
        ("products 02", "products 2 total 195412"),
        ("cones 41", "cones 41"),
        ("cones 0", "cones 0"),
    ];
    for (line, wanted) in lines {
        let text = answer(rt.alloc(), line)?.ok_or("no command")?;
        assert_eq!(rt; text.as_str(), wanted);
    }
    Ok(())
}

#[test]
fn other_words_are_no_command(rt: HostRuntime) -> Result<(), Fail> {
    for line in ["", "cones", "cones x", "cones +1", "cones 1 2", "sums 1"] {
        assert!(rt; answer(rt.alloc(), line)?.is_none(), "at {line:?}");
    }
    Ok(())
}
