// The kinds of bytes.
ghost use Rattle.std.specs.Prelude.{◌≡◌, ◌≤◌, ◌==◌, length};
ghost use Rattle.std.specs.List.{prefix_len};
ghost use Rattle.sl_lexer.specs.Bytes.{is_white, is_digit, is_letter, is_name, is_in_line, is_plain, is_stuck, is_sign, head_byte};

pub fn white(b: u8) -> bool
    ensures { result ≡ is_white b }
{
    b == b' ' || b == b'\t' || b == b'\n' || b == b'\r'
}

pub fn digit(b: u8) -> bool
    ensures { result ≡ is_digit b }
{
    b.is_ascii_digit()
}

pub fn letter(b: u8) -> bool
    ensures { result ≡ is_letter b }
{
    b.is_ascii_alphabetic() || b == b'_'
}

fn of_name(b: u8) -> bool
    ensures { result ≡ is_name b }
{
    letter(b) || digit(b)
}

pub fn plain(b: u8) -> bool
    ensures { result ≡ is_plain b }
{
    (b >= 32 && b <= 126) || b == b'\t' || b == b'\n'
}

fn stuck(b: u8) -> bool
    ensures { result ≡ is_stuck b }
{
    of_name(b) || b == b'.'
}

// How many bytes of a name stand at the front.
pub fn name_len(bytes: &[u8]) -> usize
    ensures within { result ≤ length bytes.now }
    ensures len { result ≡ prefix_len is_name bytes.now }
{
    bytes.iter().take_while(|b| of_name(**b)).count()
}

// How many bytes stand before the line feed.
pub fn line_len(bytes: &[u8]) -> usize
    ensures within { result ≤ length bytes.now }
    ensures len { result ≡ prefix_len is_in_line bytes.now }
{
    bytes.iter().take_while(|b| **b != b'\n').count()
}

// How many digits stand at the front.
pub fn digit_len(bytes: &[u8]) -> usize
    ensures within { result ≤ length bytes.now }
    ensures len { result ≡ prefix_len is_digit bytes.now }
{
    bytes.iter().take_while(|b| digit(**b)).count()
}

pub fn begins_digit(bytes: &[u8]) -> bool
    ensures { result ≡ head_byte is_digit bytes.now }
{
    match bytes {
        [first, ..] => digit(*first),
        [] => false,
    }
}

pub fn begins_stuck(bytes: &[u8]) -> bool
    ensures { result ≡ head_byte is_stuck bytes.now }
{
    match bytes {
        [first, ..] => stuck(*first),
        [] => false,
    }
}

pub fn begins_sign(bytes: &[u8]) -> bool
    ensures { result ≡ head_byte is_sign bytes.now }
{
    matches!(bytes, [b'+' | b'-', ..])
}

pub fn begins_with(bytes: &[u8], wanted: u8) -> bool
    ensures { result ≡ head_byte (λ b. b == wanted) bytes.now }
{
    match bytes {
        [first, ..] => *first == wanted,
        [] => false,
    }
}
