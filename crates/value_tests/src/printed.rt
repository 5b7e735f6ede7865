//! Refusals as texts.

use owl_atom::{DeclareFault, ExpandFault, IriFault, LabelFault, LiteralFault};
use owl_characters::NoMemory;
use owl_command::WordsFault;
use owl_port::Failed;
use owl_reader::{ReadFault, Reason};
use owl_writing::WriteFault;
use std::test::Fail;

#[test]
fn refusals_of_atoms_are_printed(rt: HostRuntime) -> Result<(), Fail> {
    let text = format!(in rt.alloc();
        "{} / {} / {} / {} / {} / {} / {}",
        IriFault::BadIri,
        LabelFault::BadLabel,
        LiteralFault::BadLiteral,
        DeclareFault::PrefixTwice,
        DeclareFault::PrefixFixed,
        ExpandFault::UnknownPrefix,
        ExpandFault::Memory,
    )?;
    assert_eq!(rt;
        text.as_str(),
        "no IRI / no label of a blank node / no literal of this datatype \
         / the prefix is declared twice / the prefix stands for another IRI \
         / no such prefix / out of memory"
    );
    Ok(())
}

#[test]
fn refusals_of_devices_and_words_are_printed(rt: HostRuntime) -> Result<(), Fail> {
    let text = format!(in rt.alloc();
        "{} / {} / {} / {} / {} / {} / {} / {} / {}",
        Failed,
        owl_port::ReadFault::Failed,
        owl_port::ReadFault::TooLong,
        owl_port::ReadFault::Memory,
        NoMemory,
        WordsFault::Words,
        WordsFault::Memory,
        WriteFault::TooLong,
        WriteFault::Memory,
    )?;
    assert_eq!(rt;
        text.as_str(),
        "the device failed / the shelf failed / the document is longer than its limit \
         / out of memory / out of memory / words / out of memory / too long / out of memory"
    );
    Ok(())
}

/// Whether the refusal is printed as this text.
fn is_printed(rt: &HostRuntime, fault: ReadFault, text: &str) -> Result<bool, Fail> {
    let printed = format!(in rt.alloc(); "{fault}")?;
    Ok(printed.as_str() == text)
}

#[test]
fn refusals_of_readers_are_printed(rt: HostRuntime) -> Result<(), Fail> {
    for (fault, text) in [
        (ReadFault::TooLong, "too long"),
        (ReadFault::TooDeep, "too deep"),
        (ReadFault::TooHeavy, "too heavy"),
        (ReadFault::NumberTooLarge, "a number is too large"),
        (ReadFault::Memory, "out of memory"),
    ] {
        assert!(rt; is_printed(&rt, fault, text)?, "{text}");
    }
    Ok(())
}

/// Whether a refusal for this reason is printed as this name and two places.
fn is_printed_with_places(rt: &HostRuntime, reason: Reason, name: &str) -> Result<bool, Fail> {
    let fault = ReadFault::Refused {
        item_at: 1,
        at: 2,
        reason,
    };
    let printed = format!(in rt.alloc(); "{fault}")?;
    Ok(printed.as_str().strip_prefix(name) == Some(" at byte 2, in the item at byte 1"))
}

#[test]
fn reasons_are_printed_with_their_places(rt: HostRuntime) -> Result<(), Fail> {
    for (reason, name) in [
        (Reason::BadUtf8, "BadUtf8"),
        (Reason::BadToken, "BadToken"),
        (Reason::NotHere, "NotHere"),
        (Reason::UnknownPrefix, "UnknownPrefix"),
        (Reason::PrefixTwice, "PrefixTwice"),
        (Reason::PrefixFixed, "PrefixFixed"),
        (Reason::BadLiteral, "BadLiteral"),
        (Reason::EmptyKey, "EmptyKey"),
    ] {
        assert!(rt; is_printed_with_places(&rt, reason, name)?, "{name}");
    }
    Ok(())
}
