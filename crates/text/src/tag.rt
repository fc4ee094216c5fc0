// Tags of names, which tell them apart without comparing their bytes.
ghost use Rattle.std.specs.Prelude.{◌≡◌, ◌+◌, ◌≤◌, ◌<◌, length};
ghost use Rattle.text.specs.Tag.{tag_limit, tag_bits, four_of, mixed_of, long_tag, tag_of};

// A tag is below this.
const TAG_LIMIT: u64 = 4294967296;

// What is multiplied by these tells in all higher bits: the state of a name over twelve bytes, and the first four bytes, the
// middle four and the last four of another.
const MIXER: u64 = 1540483477;

const FIRST_MIXER: u64 = 506832829;

const MIDDLE_MIXER: u64 = 668265263;

const LAST_MIXER: u64 = 374761393;

// The four bytes from an offset on, as a number.
#[tactic(auto, unfolding(crate::specs::Tag::four_of))]
fn four(bytes: &[u8], at: usize) -> u32
    requires { at + 4 ≤ length bytes.now }
    ensures { result ≡ four_of bytes.now at }
{
    u32::from_le_bytes([bytes[at], bytes[at + 1], bytes[at + 2], bytes[at + 3]])
}

// The bits of a product that a tag keeps.
fn kept(product: u64) -> u32
    ensures { result ≡ tag_bits product }
{
    (product / 65536 % TAG_LIMIT) as u32
}

// Four bytes more, mixed into the state.
#[tactic(auto, unfolding(crate::specs::Tag::mixed_of))]
fn mixed(state: u32, more: u32) -> u32
    ensures { result ≡ mixed_of state more }
{
    kept((u64::from(state) + u64::from(more)) * MIXER)
}

// The tag of a name over twelve bytes: eight a step in two lanes, the last eight once more.
#[tactic(auto, using(crate::proofs::Chunks::array_four), unfolding(crate::specs::Tag::lane_of, crate::specs::Tag::long_tag))]
fn long_tag(bytes: &[u8]) -> u32
    requires eight { 8 ≤ length bytes.now }
    requires counted { length bytes.now < tag_limit }
    ensures { result ≡ long_tag bytes.now (length bytes.now) }
{
    let n = bytes.len();
    let mut one = n as u32;
    let mut two = 0;
    let (eights, _) = bytes.as_chunks::<8>();
    for eight in eights {
        one = mixed(one, four(eight, 0));
        two = mixed(two, four(eight, 4));
    }
    one = mixed(one, four(bytes, n - 8));
    two = mixed(two, four(bytes, n - 4));
    mixed(one, two)
}

// A name's tag. Equal names have equal tags, and unequal ones nearly never. Up to twelve bytes are all among the first four, the
// middle four and the last four. A name over twelve bytes is mixed whole, so that names which differ in one byte, wherever it
// stands, mostly have different tags, and finding a field costs one reading of its name.
#[tactic(auto, using(logic::specs::laws::Test::choice), unfolding(crate::specs::Tag::tag_of, crate::specs::Tag::short_tag))]
pub fn tag_of(bytes: &[u8]) -> u32
    requires { length bytes.now < tag_limit }
    ensures { result ≡ tag_of bytes.now }
{
    let n = bytes.len();
    if n < 4 {
        if n == 0 {
            return 0;
        }
        return u32::from_le_bytes([n as u8, bytes[0], bytes[n / 2], bytes[n - 1]]);
    }
    if 12 < n {
        return long_tag(bytes);
    }
    kept(
        u64::from(four(bytes, 0)) * FIRST_MIXER
            + u64::from(four(bytes, n / 2 - 2)) * MIDDLE_MIXER
            + u64::from(four(bytes, n - 4)) * LAST_MIXER,
    )
}
