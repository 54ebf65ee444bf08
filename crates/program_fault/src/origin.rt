//! The line that the word of an address is from: the checker of reports does not keep it.

ghost use Rattle.std.specs.Prelude.{◌≡◌, ◌-◌};
ghost use Rattle.program_fault.specs.Origins.{origin_at, origin_before};

use report_lines::{ReportLine, read_line};

/// The line that an entry has its word from.
#[derive(Clone, Copy)]
pub enum Origin {
    /// No line before it names the address.
    Nothing,
    /// The `init` line of the address.
    Init(u64),
    /// The last entry on the address.
    Entry(u64),
}

/// The origin behind one more line, which stands at a number.
fn origin_at(address: u32, number: u64, line: &ReportLine, found: Origin) -> Origin
    ensures { result ≡ origin_at address number line.now found }
{
    match line {
        ReportLine::Init(at, _) => {
            if *at == address {
                Origin::Init(number)
            } else {
                found
            }
        }
        ReportLine::Entry(entry) => {
            if entry.address == address {
                Origin::Entry(number)
            } else {
                found
            }
        }
        _ => found,
    }
}

/// The origin of the word of an address before a line of a text.
pub(crate) fn origin_before(address: u32, text: &[u8], line: u64) -> Origin
    ensures { result ≡ origin_before address 1 Origin.Nothing text.now (line - 1) }
{
    let mut found = Origin::Nothing;
    let mut rest = text;
    let mut number = 1u64;
    while number < line {
        let Some((read, after)) = read_line(rest) else {
            return found;
        };
        found = origin_at(address, number, &read, found);
        rest = after;
        number += 1;
    }
    found
}
