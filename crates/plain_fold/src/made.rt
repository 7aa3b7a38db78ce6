//! What the generator's script leaves, on a plain list of documents.
use ix_base::NoMemory;
use std::alloc::Global;

/// A document of the generator: its caller, the numbers in its key and its tag, and its number.
#[derive(Clone, Copy)]
struct Plain {
    caller: u64,
    key: u64,
    tag: u64,
    number: u64,
}

/// Does what a drawn number says, on a plain list of documents.
fn fold_draw(rows: &mut Vec<Plain>, caller: u64, draw: u64) -> Result<(), NoMemory> {
    let number = draw / 8;
    let one = Plain {
        caller,
        key: number % 16,
        tag: number % 4,
        number,
    };
    match draw % 8 {
        0..4 => rows.push(one)?,
        4 => {
            rows.retain(|row| row.caller != one.caller || row.key != one.key);
            rows.push(one)?;
        }
        5 => rows.retain(|row| row.caller != one.caller || row.tag != one.tag),
        6 => {
            for row in rows.iter_mut() {
                if row.caller == one.caller && row.tag == one.tag {
                    row.number = one.number;
                }
            }
        }
        _ => rows.retain(|row| {
            row.caller != one.caller || row.tag != one.tag || row.key == one.key
        }),
    }
    Ok(())
}

/// What the script of seed 7 with 20,000 lines by 8 callers makes of a plain list of documents: how
/// many there are, and the sum of their numbers.
pub fn plain_sum(alloc: Global) -> Result<(u64, u64), NoMemory> {
    let mut rows = Vec::new(alloc);
    let mut state = 7u64;
    for before in 0..20_000u64 {
        state = state.wrapping_mul(1_103_515_245).wrapping_add(12_345) % 2_147_483_648;
        if before % 64 != 63 {
            fold_draw(&mut rows, before % 8, state / 65_536)?;
        }
    }
    let mut sum = 0u64;
    for row in rows.iter() {
        sum = sum.wrapping_add(row.number);
    }
    Ok((rows.len() as u64, sum))
}
