// Lists the schema of the return in the folder that it runs in: options.bin, commands.bin and text.bin. A line for each
// field record, and a last one; or why there is no schema, and where. Arguments name the files of other returns, three
// for each, which are listed one after another.

#![tactic(auto)]

ghost use Rattle.std.specs.Prelude.{◌≡◌, ◌≤◌, IfSome, length};
ghost use Rattle.schema_list.specs.Call.{output_bytes, TracedInto};

use fasthrom::Answer;
use std::env::FillError;
use std::rt::{Env, Files};

// Bytes of the longest path.
const PATH: usize = 4096;

// Bytes of commands and of text that are read: one more than the call takes, so that a longer file is refused as too long.
const MOST: usize = 65536;

fn print_answer(rt: &impl Print, answer: Answer, fields: &[u8], names: &[u8])
    requires { length fields.now ≤ 65536 }
{
    if answer.refusal != 0 {
        let _ = println!(rt; "refused {} {}", answer.refusal, answer.place);
        return;
    }
    let bytes = files::end_of(fields, 0, answer.field_records as usize * 8);
    let named = files::end_of(names, 0, answer.name_bytes as usize);
    listing::print_records(rt, &fields[..bytes], &names[..named]);
    let _ = println!(rt; "accepted {} {}", answer.field_records, answer.columns);
}

// The call, over output buffers as long as document 01 has them, and a table of its fixed size.
fn trace(options: u16, commands: &[u8], text: &[u8], fields: &mut [u8], names: &mut [u8]) -> Answer
    requires { (length fields.old ≡ output_bytes) × (length names.old ≡ output_bytes) }
    ensures { TracedInto options commands text fields names result }
{
    let mut table = [0u32; words::WORDS];
    fasthrom::fasthrom_trace(options, commands, text, &mut table, fields, names)
}

// The buffers are of fixed sizes, as what the call is lent is.
#[inline(never)]
fn list_batch(rt: &impl Print, options: u16, commands: &[u8], text: &[u8]) {
    let mut fields = [0u8; 65536];
    let mut names = [0u8; 65536];
    let answer = trace(options, commands, text, &mut fields, &mut names);
    print_answer(rt, answer, &fields, &names);
}

// A file's bytes, as many as a buffer holds, which is lent, so that no heap is needed; none where a read fails.
fn read<'a, R: Files + Eprint>(rt: &R, path: &[u8], buffer: &'a mut [u8]) -> Option<&'a [u8]>
    ensures { IfSome result (λ bytes. length bytes.now ≤ length buffer.old) }
{
    let loaded = files::load(rt, path, buffer);
    loaded.readable.then_some(&buffer[..loaded.bytes])
}

// The three files of a return.
#[derive(Clone, Copy)]
struct Paths<'a> {
    options: &'a [u8],
    commands: &'a [u8],
    text: &'a [u8],
}

impl Paths<'_> {
    // The options word. It is two bytes: a third would be read, and turned down.
    fn options_word<R: Files + Eprint>(&self, rt: &R) -> Option<u16> {
        let mut buffer = [0u8; 3];
        let options = read(rt, self.options, &mut buffer)?;
        if options.len() != 2 {
            let path = str::from_utf8(self.options).unwrap_or("");
            let _ = eprintln!(rt; "{path}: not two bytes long");
            return None;
        }
        Some(files::two_bytes(options, 0))
    }

    // The commands and the text are read where the options word is one: what is lent is zeroed first, which takes longer than to turn a
    // return down, and so it stands in a function of its own.
    #[inline(never)]
    fn list_under<R: Files + Print + Eprint>(&self, rt: &R, options: u16) -> Option<()> {
        let mut commands = [0u8; MOST];
        let mut text = [0u8; MOST];
        let commands = read(rt, self.commands, &mut commands)?;
        let text = read(rt, self.text, &mut text)?;
        list_batch(rt, options, commands, text);
        Some(())
    }

    // Lists the return; none where one of its files cannot be read.
    fn list<R: Files + Print + Eprint>(&self, rt: &R) -> Option<()> {
        let options = self.options_word(rt)?;
        self.list_under(rt, options)
    }
}

// An argument as bytes, if there is one of that number. One that is no text names no file, where std's `args` would give up all of
// them; nor does one that is longer than the buffer, of which nothing is told.
fn argument<'a>(rt: &impl Env, number: usize, buffer: &'a mut [u8]) -> Option<&'a [u8]>
    ensures { IfSome result (λ bytes. length bytes.now ≤ length buffer.old) }
{
    match rt.arg(number, buffer) {
        Ok(bytes) => Some(&buffer[..bytes]),
        Err(FillError::TooLong) => Some(&[]),
        Err(FillError::NotPresent) => None,
    }
}

// Lists the return in the files that three arguments name; none where one of them is not there. No more are held, so that more of
// them need no more memory.
fn list_named<R: Files + Print + Eprint + Env>(
    rt: &R,
    options: usize,
    commands: usize,
    text: usize,
) -> Option<()> {
    let mut first = [0u8; PATH];
    let mut second = [0u8; PATH];
    let mut third = [0u8; PATH];
    let paths = Paths {
        options: argument(rt, options, &mut first)?,
        commands: argument(rt, commands, &mut second)?,
        text: argument(rt, text, &mut third)?,
    };
    let _ = paths.list(rt);
    Some(())
}

// The arguments after the program's name are gone through three at a time, and one or two that are left over are passed over.
fn main(rt: HostRuntime) {
    if argument(&rt, 1, &mut []).is_none() {
        let paths = Paths {
            options: b"options.bin",
            commands: b"commands.bin",
            text: b"text.bin",
        };
        let _ = paths.list(&rt);
    }
    for i in 0..usize::MAX / 3 {
        if list_named(&rt, 3 * i + 1, 3 * i + 2, 3 * i + 3).is_none() {
            break;
        }
    }
}
