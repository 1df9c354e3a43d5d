// The text of the cases, read line by line.
ghost use Rattle.std.specs.Prelude.{◌≡◌, ◌≢◌, ◌≤◌, ◌<◌, ◌↔◌, length, IfOk, OnOk, IfErr, IsTrue};
ghost use Rattle.std.specs.List.{All};
ghost use Rattle.conformance.specs.Lines.{line_feed, Stands, number_at};
ghost use Rattle.conformance.specs.declared.stop.Stop.TheVariants.{Form};

use crate::stop::Stop;

/// A place in a text that is read line by line.
#[derive(Drop)]
pub struct Reader<'a> {
    text: &'a [u8],
    // where the line that was read last starts
    start: usize,
    // where what is left starts
    at: usize,
    ghost started: { start ≤ length text.now },
    ghost within: { at ≤ length text.now },
}

impl<'a> Reader<'a> {
    /// The start of a text.
    pub fn new(text: &'a [u8]) -> Self
        ensures text { result.text.now ≡ text.now }
        ensures at { result.at ≡ 0 }
    {
        Reader {
            text,
            start: 0,
            at: 0,
        }
    }

    /// Whether nothing is left.
    pub fn is_at_end(&self) -> bool
        ensures { IsTrue result ↔ (self.now.at ≡ length self.now.text.now) }
    {
        self.at == self.text.len()
    }

    /// The stop at the line that was read last.
    pub fn malformed(&self) -> Stop
        ensures { result ≡ Form (number_at self.now.text.now self.now.start) }
    {
        Stop::Form(line_number(self.text, self.start))
    }

    /// The next line, without the line feed that ends it. A text without one is malformed in its last line.
    pub fn line(&mut self) -> Result<&'a str, Stop>
        ensures same { self.new.text ≡ self.old.text }
        ensures start { self.new.start ≡ self.old.at }
        ensures further { OnOk result (self.old.at < self.new.at) }
        ensures read { IfOk result (λ l. Stands self.old.text.now self.old.at self.new.at l.now) }
        ensures first { IfOk result (λ l. All (λ b. b ≢ line_feed) l.now) }
        ensures malformed { IfErr result (λ e. e ≡ Form (number_at self.old.text.now self.old.at)) }
    {
        let text = self.text;
        let rest = &text[self.at..];
        self.start = self.at;
        let Some(length) = rest.iter().position(|byte| *byte == b'\n') else {
            return Err(self.malformed());
        };
        self.at += length + 1;
        match str::from_utf8(&rest[..length]) {
            Ok(line) => Ok(line),
            Err(_) => Err(self.malformed()),
        }
    }

    /// The next bytes of this number, behind which a line feed stands.
    ///
    /// Where they aren't there, the line that was read last is malformed, since it gave their number.
    pub fn bytes(&mut self, count: usize) -> Result<&'a [u8], Stop>
        ensures same { self.new.text ≡ self.old.text }
        ensures start { self.new.start ≡ self.old.start }
        ensures further { OnOk result (self.old.at < self.new.at) }
        ensures read { IfOk result (λ b. Stands self.old.text.now self.old.at self.new.at b.now) }
        ensures whole { IfOk result (λ b. length b.now ≡ count) }
        ensures malformed { IfErr result (λ e. e ≡ Form (number_at self.old.text.now self.old.start)) }
    {
        let text = self.text;
        let rest = &text[self.at..];
        if count >= rest.len() || rest[count] != b'\n' {
            return Err(self.malformed());
        }
        self.at += count + 1;
        Ok(&rest[..count])
    }
}

// The number of the line that starts at a place, counted from 1.
fn line_number(text: &[u8], start: usize) -> usize
    requires { start ≤ length text.now }
    ensures { result ≡ number_at text.now start }
{
    text[..start].iter().filter(|byte| **byte == b'\n').count() + 1
}
