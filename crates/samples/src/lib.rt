// Reads a batch, each record a value at the root (from_samples/mod.rs).

#![tactic(auto)]

ghost use Rattle.std.specs.Prelude.{◌≡◌};
ghost use Rattle.places.specs.Layout.{Sound};
ghost use Rattle.leaves.specs.Leaves.{TracedAs};
ghost use Rattle.samples.specs.Samples.{from_samples, ReadsAll};

use leaves::{Batch, Site, Traced};
use options::TracingOptions;
use places::Places;
use refusal::Refused;
use words::{Place, Table};

// Containers stand at most so deep.
const LEVELS: usize = 20;

// All records of a batch at the root, which is the one place that there is at first: the offset behind them.
fn read_records(batch: &Batch<'_>, places: &mut Places<'_, '_>) -> Result<usize, Refused>
    requires one { places.old.count ≡ 1 }
    requires same_text { places.old.text.now ≡ batch.now.text.now }
    ensures { ReadsAll batch.entry.now places.old places.new result }
{
    let end = batch.commands.len();
    let mut at = 0;
    while at < end {
        let root = Site {
            place: Place::ROOT,
            levels: LEVELS,
        };
        at = reading::read_value(batch, at, root, places)?;
    }
    Ok(at)
}

// Tracer::from_samples. The text is looked at once, so that where it is ASCII no text in it is tested for UTF-8. What is lent comes one by
// one, as from the C interface, and the table is handed over whole.
pub fn from_samples(
    commands: &[u8],
    text: &[u8],
    options: TracingOptions,
    table: &mut Table,
) -> Result<Traced, Refused>
    requires { Sound text.now table.old 1 }
    ensures { TracedAs text table 1 result
        (from_samples commands.now text.now options.word table.old) }
{
    let batch = Batch {
        commands,
        text,
        options: options.over(text::is_ascii(text)),
    };
    let mut places = Places {
        text,
        table,
        count: 1,
    };
    let next = read_records(&batch, &mut places)?;
    Ok(Traced {
        next,
        count: places.count,
    })
}
