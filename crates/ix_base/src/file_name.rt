//! The names of a store's files.
ghost use Rattle.std.specs.Prelude.{◌≡◌, ◌≤◌, ◌++◌, ℕ, None, IfSome, length, codes};
ghost use Rattle.std.specs.Fmt.{decimal};
ghost use Rattle.ix_base.specs.FileNames.{name_text, IsCounted, IsFileName};

use arrayvec::ArrayString;

/// The name of a file of an index. Each number is at least 1; any other name is foreign.
#[derive(Clone, Copy, Debug, PartialEq, Eq, PartialOrd, Ord)]
pub enum FileName {
    /// The commit of this number.
    Commit(u64),
    /// A commit file before it is renamed.
    Pending(u64),
    /// The rows of the segment of this id.
    Rows(u64),
    /// The postings of the segment of this id.
    Posts(u64),
    /// The live bits of a segment, written with a commit: id and number.
    Live(u64, u64),
    /// The set numbers of a segment, written with a commit: id and number.
    Values(u64, u64),
}

impl FileName {
    /// The name as a directory shows it, as `segments_2` or `seg_1.row`. It takes no memory.
    pub fn text(self) -> ArrayString<56>
        ensures { result.bytes ≡ name_text self }
    {
        match self {
            FileName::Commit(number) => numbered("segments_", number, ""),
            FileName::Pending(number) => numbered("pending_segments_", number, ""),
            FileName::Rows(id) => numbered("seg_", id, ".row"),
            FileName::Posts(id) => numbered("seg_", id, ".pst"),
            FileName::Live(id, number) => written_with(id, number, ".liv"),
            FileName::Values(id, number) => written_with(id, number, ".val"),
        }
    }
}

impl FileName {
    /// The name that a directory shows as this text: `Some` only of a name with numbers from 1 whose
    /// text this is, and `None` exactly of a foreign name. It takes no memory.
    pub fn parse(text: &str) -> Option<FileName>
        ensures text { IfSome result (λ name. name_text name ≡ text.now) }
        ensures real { IfSome result IsFileName }
        ensures foreign { result ≡ None → (name : FileName) → IsFileName name
            → name_text name ≡ text.now → ⊥ }
    {
        if let Some(number) = number_between("segments_", text, "") {
            return Some(FileName::Commit(number));
        }
        if let Some(number) = number_between("pending_segments_", text, "") {
            return Some(FileName::Pending(number));
        }
        if let Some(id) = number_between("seg_", text, ".row") {
            return Some(FileName::Rows(id));
        }
        if let Some(id) = number_between("seg_", text, ".pst") {
            return Some(FileName::Posts(id));
        }
        if let Some((id, number)) = numbers_before(text, ".liv") {
            return Some(FileName::Live(id, number));
        }
        let (id, number) = numbers_before(text, ".val")?;
        Some(FileName::Values(id, number))
    }
}

/// The number from 1 that these digits spell, if they spell one without leading zeros.
fn counted(digits: &str) -> Option<u64>
    ensures some { IfSome result (λ number. IsCounted number × (digits.now ≡ decimal number)) }
    ensures none { result ≡ None → (number : ℕ) → IsCounted number → digits.now ≡ decimal number
        → ⊥ }
{
    let number = digits.parse::<u64>().ok()?;
    let mut spelling = itoa::Buffer::new();
    if number > 0 && spelling.format(number) == digits {
        Some(number)
    } else {
        None
    }
}

/// The number from 1 that stands in the text between this prefix and this suffix.
fn number_between(front: &str, text: &str, end: &str) -> Option<u64>
    ensures some { IfSome result (λ number. IsCounted number
        × (text.now ≡ front.now ++ (decimal number ++ end.now))) }
    ensures none { result ≡ None → (number : ℕ) → IsCounted number
        → text.now ≡ front.now ++ (decimal number ++ end.now) → ⊥ }
{
    let rest = text.strip_prefix(front)?;
    let digits = rest.strip_suffix(end)?;
    counted(digits)
}

/// The id and the number, each from 1, of a file that was written with a commit and has this end.
fn numbers_before(text: &str, end: &str) -> Option<(u64, u64)>
    ensures some { IfSome result (λ both. IsCounted both.0 × IsCounted both.1 × (text.now
        ≡ codes "seg_" ++ (decimal both.0 ++ (codes "_" ++ (decimal both.1 ++ end.now))))) }
    ensures none { result ≡ None → (id number : ℕ) → IsCounted id → IsCounted number → text.now
        ≡ codes "seg_" ++ (decimal id ++ (codes "_" ++ (decimal number ++ end.now))) → ⊥ }
{
    let rest = text.strip_prefix("seg_")?;
    two_counted(rest.strip_suffix(end)?)
}

/// Two numbers from 1 that stand round a `_`.
fn two_counted(digits: &str) -> Option<(u64, u64)>
    ensures some { IfSome result (λ both. IsCounted both.0 × IsCounted both.1
        × (digits.now ≡ decimal both.0 ++ (codes "_" ++ decimal both.1))) }
    ensures none { result ≡ None → (id number : ℕ) → IsCounted id → IsCounted number
        → digits.now ≡ decimal id ++ (codes "_" ++ decimal number) → ⊥ }
{
    let (id, number) = digits.split_once('_')?;
    let id = counted(id)?;
    Some((id, counted(number)?))
}

fn numbered(front: &str, number: u64, end: &str) -> ArrayString<56>
    requires front { length front.now ≤ 17 }
    requires end { length end.now ≤ 4 }
    ensures { result.bytes ≡ front.now ++ (decimal number ++ end.now) }
{
    let mut digits = itoa::Buffer::new();
    let mut text = ArrayString::<56>::new();
    text.push_str(front);
    text.push_str(digits.format(number));
    text.push_str(end);
    text
}

fn written_with(id: u64, number: u64, end: &str) -> ArrayString<56>
    requires { length end.now ≤ 4 }
    ensures { result.bytes ≡ codes "seg_"
        ++ (decimal id ++ (codes "_" ++ (decimal number ++ end.now))) }
{
    let mut digits = itoa::Buffer::new();
    let mut text = ArrayString::<56>::new();
    text.push_str("seg_");
    text.push_str(digits.format(id));
    text.push_str("_");
    text.push_str(digits.format(number));
    text.push_str(end);
    text
}
