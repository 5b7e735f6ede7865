//! Texts that came of a row, beside those that are wanted.

ghost use Rattle.std.specs.Prelude.{◌≡◌, OnErr, string_bytes};
ghost use Rattle.std.specs.Io.{StartsWith};

use std::alloc::AllocError;

/// Tells of a text that is not as wanted, by its first line that isn't, behind what
/// was told before. Where nothing is wanted, it has to be empty.
pub fn compare_texts(
    what: &str,
    came: &[u8],
    wanted: &Option<Vec<u8>>,
    report: &mut String,
) -> Result<(), AllocError>
    ensures kept { StartsWith (string_bytes report.new) (string_bytes report.old) }
    ensures err { OnErr result (string_bytes report.new ≡ string_bytes report.old) }
{
    let wanted = bytes_or_none(wanted);
    if came == wanted {
        return Ok(());
    }
    let (number, came, wanted) = first_difference(text_of(came), text_of(wanted));
    let line = format!(in *report.allocator();
        "line {number} of the {what} is {came:?}, and not {wanted:?}\n"
    )?;
    report.push_str(line.as_str())
}

fn bytes_or_none(text: &Option<Vec<u8>>) -> &[u8] {
    match text {
        Some(bytes) => bytes,
        None => &[],
    }
}

fn text_of(bytes: &[u8]) -> &str {
    str::from_utf8(bytes).unwrap_or("no UTF-8")
}

/// The number of the first line in which two texts differ, and this line of
/// each of them.
fn first_difference<'a>(came: &'a str, wanted: &'a str) -> (u64, &'a str, &'a str) {
    let mut others = wanted.split('\n');
    let mut number = 1u64;
    for line in came.split('\n') {
        let other = others.next();
        if other != Some(line) {
            return (number, line, other.unwrap_or("the end"));
        }
        number = number.saturating_add(1);
    }
    (number, "the end", others.next().unwrap_or("the end"))
}
