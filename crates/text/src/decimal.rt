// Decimal numerals.
ghost use Rattle.std.specs.Prelude.{◌≡◌, ◌+◌, ◌≤◌, length};
ghost use Rattle.logic.specs.Buffer.{written};
ghost use Rattle.text.specs.Decimal.{decimal};

// How many digits a number has.
#[tactic(auto, using(crate::specs::laws::Decimal::length_logarithm))]
pub fn decimal_length(n: u16) -> usize
    ensures { result ≡ length (decimal n) }
{
    n.max(1).ilog10() as usize + 1
}

// Writes the number in decimal, and answers the offset behind it. The last digit is written first. Copied out of a buffer of their own, the
// digits would need memmove, which a library for C would have to be given.
pub fn put_decimal(out: &mut [u8], at: usize, n: u16) -> usize
    requires { at + length (decimal n) ≤ length out.old }
    ensures { (result ≡ at + length (decimal n)) × (out.new ≡ written out.old at (decimal n)) }
{
    let end = at + decimal_length(n);
    let mut i = end;
    let mut left = n;
    while 10 <= left {
        i -= 1;
        out[i] = b'0' + (left % 10) as u8;
        left /= 10;
    }
    out[at] = b'0' + left as u8;
    end
}
