// The numbers of a header.
ghost use Rattle.std.specs.Prelude.{◌≡◌, ◌≤◌, length, drop, false, MatchOption};
ghost use Rattle.std.specs.List.{prefix_len};
ghost use Rattle.fixed_math.specs.NumberBytes.{is_digit as is_digit_of};
ghost use Rattle.fixed_math.specs.Digits.{value_of};
ghost use Rattle.texture.specs.Files.{is_white as is_white_of, Each};
ghost use Rattle.texture.specs.Scans.{stays as stays_of, turns as turns_of, behind_gap, cut, IsCutNumber, HasNoNumber};

/// Whether a byte is white space.
pub(crate) fn is_white(byte: u8) -> bool
    ensures { result ≡ is_white_of byte }
{
    byte == b' ' || byte == b'\t' || byte == b'\n' || byte == b'\r'
}

fn is_digit(byte: u8) -> bool
    ensures { result ≡ is_digit_of byte }
{
    byte.is_ascii_digit()
}

/// Whether `byte` goes on with white space and comments.
fn stays(comment: bool, byte: u8) -> bool
    ensures { result ≡ stays_of comment byte }
{
    comment || is_white(byte) || byte == b'#'
}

/// Whether what follows `byte` lies in a comment.
fn turns(comment: bool, byte: u8) -> bool
    ensures { result ≡ turns_of comment byte }
{
    if comment { byte != b'\n' } else { byte == b'#' }
}

/// How many bytes of white space and comments stand at the front.
fn gap_len(bytes: &[u8]) -> usize
    ensures value { drop result bytes.now ≡ behind_gap false bytes.now }
    ensures within { result ≤ length bytes.now }
{
    let mut comment = false;
    for i in 0..bytes.len() {
        let byte = bytes[i];
        if !stays(comment, byte) {
            return i;
        }
        comment = turns(comment, byte);
    }
    bytes.len()
}

/// How many digits stand at the front.
fn digit_len(bytes: &[u8]) -> usize
    ensures within { result ≤ length bytes.now }
    ensures len { result ≡ prefix_len is_digit_of bytes.now }
{
    bytes.iter().take_while(|b| is_digit(**b)).count()
}

/// The number that these digits stand for, cut.
fn cut_value(digits: &[u8]) -> u64
    requires { Each is_digit_of digits.now }
    ensures { result ≡ cut (value_of digits.now) }
{
    let mut value = 0u64;
    for digit in digits {
        value = value
            .saturating_mul(10)
            .saturating_add((*digit - b'0') as u64);
    }
    value
}

/// The number at the front, cut, with white space or a comment before it, and the bytes behind it.
pub(crate) fn number(bytes: &[u8]) -> Option<(u64, &[u8])>
    ensures { MatchOption result (HasNoNumber bytes.now) (λ r. IsCutNumber bytes.now r.0 r.1.now) }
{
    let len = gap_len(bytes);
    if len == 0 {
        return None;
    }
    let (_gap, behind) = bytes.split_at(len);
    let count = digit_len(behind);
    if count == 0 {
        return None;
    }
    let (digits, rest) = behind.split_at(count);
    Some((cut_value(digits), rest))
}
