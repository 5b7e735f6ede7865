//! The document that a trial makes.

ghost use Rattle.std.specs.Prelude.{◌≡◌, ◌<◌, ◌++◌, string_bytes, IfOk, OnOk};
ghost use Rattle.owl_command.specs.Commands.{IsTrialSize, most_classes};
ghost use Rattle.owl_answer.specs.TrialDocument.{class_line, link_lines, numbered, trial_document};

use std::alloc::{AllocError, Global};

/// What stands in front of the classes.
const OPENING: &str =
    "Prefix(:=<http://t.example/>)\nOntology(<http://t.example/o>\nDeclaration(ObjectProperty(:p))\n";

/// The declaration of the class with this number.
fn class_line(alloc: Global, number: u32) -> Result<String, AllocError>
    ensures { IfOk result (λ line. string_bytes line ≡ class_line number) }
{
    format!(in alloc; "Declaration(Class(:C{number}))\n")
}

/// That the class behind this number lies below the one with it, and below what has
/// something in that.
fn link_lines(alloc: Global, number: u32) -> Result<String, AllocError>
    requires { number < most_classes }
    ensures { IfOk result (λ lines. string_bytes lines ≡ link_lines number) }
{
    let next = number + 1;
    format!(in alloc;
        "SubClassOf(:C{next} :C{number})\nSubClassOf(:C{next} ObjectSomeValuesFrom(:p :C{number}))\n"
    )
}

/// Adds the declarations of so many classes.
fn add_classes(alloc: Global, text: &mut String, count: u32) -> Result<(), AllocError>
    ensures { OnOk result (string_bytes text.new
        ≡ string_bytes text.old ++ numbered class_line count) }
{
    for number in 0..count {
        text.push_str(class_line(alloc, number)?.as_str())?;
    }
    Ok(())
}

/// Adds what links so many classes to those behind them.
fn add_links(alloc: Global, text: &mut String, count: u32) -> Result<(), AllocError>
    requires { count < most_classes }
    ensures { OnOk result (string_bytes text.new
        ≡ string_bytes text.old ++ numbered link_lines count) }
{
    for number in 0..count {
        text.push_str(link_lines(alloc, number)?.as_str())?;
    }
    Ok(())
}

/// The document of a trial, in Functional-Style Syntax: so many classes in a chain.
pub fn trial_document(alloc: Global, size: u32) -> Result<String, AllocError>
    requires { IsTrialSize size }
    ensures { IfOk result (λ text. string_bytes text ≡ trial_document size) }
{
    let mut text = String::from_str(alloc, OPENING)?;
    add_classes(alloc, &mut text, size)?;
    add_links(alloc, &mut text, size - 1)?;
    text.push_str(")\n")?;
    Ok(text)
}
