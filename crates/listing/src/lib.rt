// The lines that list field records: level, type, nullable, strategy, variant, children, name (document 01, "Soundings").

#![tactic(auto)]

ghost use Rattle.std.specs.Prelude.{◌≡◌, ◌+◌, ◌<◌, ◌≤◌, ℕ, length, slice_index};
ghost use Rattle.listing.specs.Levels.{level_after, one_fewer, next_level, next_due};

// The line of a field record: level, type, nullable, strategy, variant, children, name. The name is any bytes, and so no `Display`.
fn print_record(rt: &impl Print, level: usize, record: &[u8; 8], name: &[u8]) {
    let [data_type, nullable, strategy, variant, ..] = *record;
    let children = files::two_bytes(record, 6);
    let _ = print!(rt; "{level} {data_type} {nullable} {strategy} {variant} {children} ");
    let _ = rt.write_all(name);
    let _ = println!(rt);
}

// At which level a record stands, and how many records are due at each level below the root's fields, that one among them.
#[derive(Drop)]
struct Levels {
    // An array, and no Vec: `print_records` cannot fail, and so must not run out of memory.
    due: [u16; 8193],
    level: usize,
    ghost within: { level < 8193 },
}

impl Levels {
    // The lowest level from the one in hand up at which more than the record in hand are due, or 0.
    fn open(&self) -> usize
        ensures within { result ≤ self.now.level }
        ensures more { 0 < result → 1 < slice_index self.now.due result }
        ensures none { (k : ℕ) → result < k → k ≤ self.now.level → slice_index self.now.due k ≤ 1 }
    {
        (1..=self.level)
            .rev()
            .find(|level| 1 < self.due[*level])
            .unwrap_or(0)
    }

    // To the record after one that has no children: at its own level while others are due there, else at that of the
    // nearest record above it after which one is.
    fn climb(&mut self)
        ensures level { self.new.level ≡ level_after self.old.due self.old.level }
        ensures due { self.new.due ≡ one_fewer self.old.due self.new.level }
        ensures above { self.new.level ≤ self.old.level }
    {
        let level = self.open();
        if 0 < level {
            self.due[level] -= 1;
        }
        self.level = level;
    }

    // To the record after one with so many children.
    #[tactic(auto, using(crate::specs::laws::Levels::next))]
    fn pass(&mut self, children: u16)
        requires { self.old.level < 8192 }
        ensures level { self.new.level ≡ next_level self.old.due self.old.level children }
        ensures due { self.new.due ≡ next_due self.old.due self.old.level children }
        ensures above { self.new.level ≤ self.old.level + 1 }
    {
        if children == 0 {
            self.climb();
        } else {
            self.level += 1;
            self.due[self.level] = children;
        }
    }
}

// Field records, preorder, with their names, which stand one after another.
pub fn print_records(rt: &impl Print, fields: &[u8], names: &[u8])
    requires { length fields.now ≤ 65536 }
{
    let mut levels = Levels {
        due: [0; 8193],
        level: 0,
    };
    let mut names = names;
    let (records, _) = fields.as_chunks::<8>();
    for record in records {
        let length = usize::from(files::two_bytes(record, 4)).min(names.len());
        let (name, rest) = names.split_at(length);
        print_record(rt, levels.level, record, name);
        levels.pass(files::two_bytes(record, 6));
        names = rest;
    }
}
