// What is exported to C, and so to Rust: the call of fasthrom, under its name and with its contract, and nothing else.

#![tactic(auto)]

ghost use Rattle.call.specs.Call.{handed_in, lent_in, left_in};
ghost use Rattle.fasthrom.specs.Called.{Called};

use fasthrom::Answer;

// The call.
#[unsafe(no_mangle)]
pub extern "C" fn fasthrom_trace(
    options: u16,
    commands: &[u8],
    text: &[u8],
    table: &mut [u32],
    fields: &mut [u8],
    names: &mut [u8],
) -> Answer
    ensures { Called (handed_in options commands text) (lent_in table fields names) result (left_in table fields names) }
{
    fasthrom::fasthrom_trace(options, commands, text, table, fields, names)
}
