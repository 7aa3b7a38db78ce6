//! The keys, tags and bodies of documents, and names of fields.
ghost use Rattle.std.specs.Prelude.{◌≡◌, ◌≤◌, length, true, IfOk};
ghost use Rattle.ix_base.specs.Limits.{is_name};
ghost use Rattle.script_maker.specs.Operations.{numbered, key_of, tag_of, body_of};

use arrayvec::ArrayString;
use ix_base::{Name, NoMemory, Text};
use std::alloc::Global;

/// The key that a number chooses among the caller's 16, as `k3-14`.
pub fn key_text(alloc: Global, caller: u8, number: u32) -> Result<Text, NoMemory>
    ensures { IfOk result (λ text. text ≡ key_of caller number) }
{
    numbered(alloc, "k", u32::from(caller), "-", number % 16)
}

/// The tag that a number chooses among the caller's 4, as `t3-2`.
pub fn tag_text(alloc: Global, caller: u8, number: u32) -> Result<Text, NoMemory>
    ensures { IfOk result (λ text. text ≡ tag_of caller number) }
{
    numbered(alloc, "t", u32::from(caller), "-", number % 4)
}

/// The two words that a number chooses, as `w14 w2`.
pub fn body_text(alloc: Global, number: u32) -> Result<Text, NoMemory>
    ensures { IfOk result (λ text. text ≡ body_of number) }
{
    numbered(alloc, "w", number % 16, " w", number % 4)
}

/// A name of these bytes.
pub fn name_of(alloc: Global, name: &str) -> Result<Name, NoMemory>
    requires { is_name name.now ≡ true }
    ensures { IfOk result (λ copy. copy ≡ name.now) }
{
    match Name::new(Text::copy_of(alloc, name)?) {
        Some(name) => Ok(name),
        None => unreachable!(),
    }
}

/// Two numbers in decimal digits, each behind a text.
fn numbered(alloc: Global, first: &str, a: u32, second: &str, b: u32) -> Result<Text, NoMemory>
    requires first { length first.now ≤ 2 }
    requires second { length second.now ≤ 2 }
    ensures { IfOk result (λ text. text ≡ numbered first.now a second.now b) }
{
    let mut digits = itoa::Buffer::new();
    let mut text = ArrayString::<32>::new();
    text.push_str(first);
    text.push_str(digits.format(a));
    text.push_str(second);
    text.push_str(digits.format(b));
    Text::copy_of(alloc, text.as_str())
}
