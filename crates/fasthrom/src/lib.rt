// The call as C and Rust have it (fasthrom_c exports it), and nothing else. What it promises is in specs/Called.antt, and what follows
// for the planner in specs/Demands.antt.

#![tactic(auto)]

ghost use Rattle.call.specs.Call.{handed_in, lent_in, left_in};
ghost use Rattle.fasthrom.specs.Called.{Called};

// What the call answers, by number, for C has no Result: on success refusal and place are 0, on a refusal every count is.
#[repr(C)]
#[derive(Clone, Copy)]
pub struct Answer {
    pub refusal: u32,
    pub place: u32,
    pub field_records: u32,
    pub name_bytes: u32,
    pub columns: u32,
}

// The call.
pub fn fasthrom_trace(
    options: u16,
    commands: &[u8],
    text: &[u8],
    table: &mut [u32],
    fields: &mut [u8],
    names: &mut [u8],
) -> Answer
    ensures { Called (handed_in options commands text) (lent_in table fields names) result (left_in table fields names) }
{
    match call::trace(options, commands, text, table, fields, names) {
        Ok(counts) => Answer {
            refusal: 0,
            place: 0,
            field_records: counts.records,
            name_bytes: counts.names,
            columns: counts.columns,
        },
        Err(refused) => Answer {
            refusal: refused.refusal.number() as u32,
            place: refused.place as u32,
            field_records: 0,
            name_bytes: 0,
            columns: 0,
        },
    }
}
