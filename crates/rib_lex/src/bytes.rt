//! The kinds of bytes, and how many of a kind stand at the front.
ghost use Rattle.std.specs.Prelude.{◌≡◌, ◌≤◌, length};
ghost use Rattle.std.specs.List.{prefix_len};
ghost use Rattle.fixed_math.specs.NumberBytes.{is_digit};
ghost use Rattle.rib_lex.specs.Bytes.{is_white, is_letter, is_name, is_in_line, is_plain, begins_number, runs_on, line_feeds};

pub fn white(b: u8) -> bool
    ensures { result ≡ is_white b }
{
    b == b' ' || b == b'\t' || b == b'\n' || b == b'\r'
}

pub fn digit(b: u8) -> bool
    ensures { result ≡ is_digit b }
{
    b.is_ascii_digit()
}

pub fn letter(b: u8) -> bool
    ensures { result ≡ is_letter b }
{
    b.is_ascii_alphabetic() || b == b'_'
}

fn of_name(b: u8) -> bool
    ensures { result ≡ is_name b }
{
    letter(b) || digit(b)
}

/// It stands for itself in a string.
pub fn plain(b: u8) -> bool
    ensures { result ≡ is_plain b }
{
    (b >= 32 && b <= 126) || b == b'\t' || b == b'\n'
}

/// A number begins with it.
pub fn numeric(b: u8) -> bool
    ensures { result ≡ begins_number b }
{
    digit(b) || b == b'+' || b == b'-' || b == b'.'
}

/// It can't stand directly behind a number.
pub fn run_on(b: u8) -> bool
    ensures { result ≡ runs_on b }
{
    of_name(b) || b == b'+' || b == b'-' || b == b'.'
}

pub fn white_len(bytes: &[u8]) -> usize
    ensures within { result ≤ length bytes.now }
    ensures len { result ≡ prefix_len is_white bytes.now }
{
    bytes.iter().take_while(|b| white(**b)).count()
}

pub fn name_len(bytes: &[u8]) -> usize
    ensures within { result ≤ length bytes.now }
    ensures len { result ≡ prefix_len is_name bytes.now }
{
    bytes.iter().take_while(|b| of_name(**b)).count()
}

/// How many bytes stand before the line feed.
pub fn line_len(bytes: &[u8]) -> usize
    ensures within { result ≤ length bytes.now }
    ensures len { result ≡ prefix_len is_in_line bytes.now }
{
    bytes.iter().take_while(|b| **b != b'\n').count()
}

/// How many line feeds there are.
pub fn line_feed_count(bytes: &[u8]) -> u32
    requires { length bytes.now ≤ 16777216 }
    ensures count { result ≡ line_feeds bytes.now }
    ensures within { result ≤ length bytes.now }
{
    bytes.iter().filter(|b| **b == b'\n').count() as u32
}
