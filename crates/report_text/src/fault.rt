//! Faults, and the lines that tell them.
ghost use Rattle.std.specs.Prelude.{◌≡◌, ◌≤◌, length};
ghost use Rattle.ix_base.specs.FileNames.{name_text};
ghost use Rattle.report_text.specs.Faults.{fault_text, status_of, why_text};

use arrayvec::ArrayString;
use ix_base::{Damaged, FileName};
use op_script::{BadLine, Why};

/// A fault that ends the program. Each has a status and a line of its own.
#[derive(Clone, Copy, Debug, PartialEq, Eq)]
pub enum Fault {
    /// The words are no command.
    Words,
    /// The script has a bad line.
    BadLine(BadLine),
    /// The source failed.
    Source,
    /// The store failed.
    Store,
    /// A file of a commit is not in the grammar, or absent.
    Damaged(Damaged),
    /// There is no commit of this number. It is 0 where no number was asked for, and the store has no
    /// commit.
    NoSuch(u64),
    /// The last commit's number is above 2^61.
    Base(u64),
    /// The files of a commit are in the grammar, but not as they have to be: at this offset of one there
    /// is another byte, 256 standing for its end, or another next id than is wanted.
    Differs {
        file: FileName,
        at: u64,
        found: u64,
        wanted: u64,
    },
}

impl Fault {
    /// The exit status of a program that ends for it: 2, 3, 5, 7, 8, 9, 10 or 11.
    pub fn status(self) -> u8
        ensures { result ≡ status_of self }
    {
        match self {
            Fault::Words => 2,
            Fault::BadLine(_) => 3,
            Fault::Source => 5,
            Fault::Store => 7,
            Fault::Damaged(_) => 8,
            Fault::NoSuch(_) => 9,
            Fault::Base(_) => 10,
            Fault::Differs { .. } => 11,
        }
    }

    /// The line that tells the fault, as `{"line":3,"status":3,"why":"caller"}`, and a line feed: what
    /// serde_json writes of the same value. It takes no memory.
    pub fn text(self) -> ArrayString<192>
        ensures { result.bytes ≡ fault_text self }
    {
        match self {
            Fault::Words => plain("{\"status\":2,\"why\":\"words\"}\n"),
            Fault::BadLine(bad) => bad_line(bad),
            Fault::Source => plain("{\"status\":5,\"why\":\"source\"}\n"),
            Fault::Store => plain("{\"status\":7,\"why\":\"store\"}\n"),
            Fault::Damaged(damaged) => damaged_file(damaged),
            Fault::NoSuch(number) => missing_commit(number),
            Fault::Base(base) => high_base(base),
            Fault::Differs {
                file,
                at,
                found,
                wanted,
            } => differing_file(file, at, found, wanted),
        }
    }
}

/// A line that is the same at each such fault.
fn plain(line: &str) -> ArrayString<192>
    requires { length line.now ≤ 192 }
    ensures { result.bytes ≡ line.now }
{
    let mut text = ArrayString::<192>::new();
    text.push_str(line);
    text
}

/// The line of a bad line.
fn bad_line(bad: BadLine) -> ArrayString<192>
    ensures { result.bytes ≡ fault_text (Fault.BadLine bad) }
{
    let mut digits = itoa::Buffer::new();
    let mut text = ArrayString::<192>::new();
    text.push_str("{\"line\":");
    text.push_str(digits.format(bad.line));
    text.push_str(",\"status\":3,\"why\":\"");
    text.push_str(reason(bad.why));
    text.push_str("\"}\n");
    text
}

/// The reason of a bad line, as its line spells it.
fn reason(why: Why) -> &'static str
    ensures text { result.now ≡ why_text why }
    ensures short { length result.now ≤ 16 }
{
    match why {
        Why::Long => "long",
        Why::Json => "json",
        Why::Caller => "caller",
        Why::Op => "op",
        Why::Members => "members",
        Why::Name => "name",
        Why::Text => "text",
        Why::Number => "number",
        Why::Query => "query",
        Why::Doc => "doc",
        Why::Data => "data",
    }
}

/// The line of a damaged file.
fn damaged_file(damaged: Damaged) -> ArrayString<192>
    ensures { result.bytes ≡ fault_text (Fault.Damaged damaged) }
{
    let name = damaged.file.text();
    let mut digits = itoa::Buffer::new();
    let mut text = ArrayString::<192>::new();
    text.push_str("{\"at\":");
    text.push_str(digits.format(damaged.at));
    text.push_str(",\"file\":\"");
    text.push_str(name.as_str());
    text.push_str("\",\"status\":8}\n");
    text
}

/// The line of a commit that isn't there.
fn missing_commit(number: u64) -> ArrayString<192>
    ensures { result.bytes ≡ fault_text (Fault.NoSuch number) }
{
    let mut digits = itoa::Buffer::new();
    let mut text = ArrayString::<192>::new();
    text.push_str("{\"commit\":");
    text.push_str(digits.format(number));
    text.push_str(",\"status\":9}\n");
    text
}

/// The line of a last commit that is too high.
fn high_base(base: u64) -> ArrayString<192>
    ensures { result.bytes ≡ fault_text (Fault.Base base) }
{
    let mut digits = itoa::Buffer::new();
    let mut text = ArrayString::<192>::new();
    text.push_str("{\"base\":");
    text.push_str(digits.format(base));
    text.push_str(",\"status\":10}\n");
    text
}

/// The line of a file that isn't as it has to be.
fn differing_file(file: FileName, at: u64, found: u64, wanted: u64) -> ArrayString<192>
    ensures { result.bytes ≡ fault_text (Fault.Differs file at found wanted) }
{
    let name = file.text();
    let mut digits = itoa::Buffer::new();
    let mut text = ArrayString::<192>::new();
    text.push_str("{\"at\":");
    text.push_str(digits.format(at));
    text.push_str(",\"file\":\"");
    text.push_str(name.as_str());
    text.push_str("\",\"found\":");
    text.push_str(digits.format(found));
    text.push_str(",\"status\":11,\"wanted\":");
    text.push_str(digits.format(wanted));
    text.push_str("}\n");
    text
}
