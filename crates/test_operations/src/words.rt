//! The words of three operations.
ghost use Rattle.delete_queue.specs.Answers.{IsOperation};

/// The words of an add.
pub fn add() -> [u64; 1]
    ensures { IsOperation result }
{
    [0x1_0000_0000]
}

/// The words of a delete of the field `key` by the term `abcde`.
pub fn delete_of_five() -> [u64; 3]
    ensures { IsOperation result }
{
    [0x3_0000_0010, 0x0000_0003_6b65_7900, 0x0000_0561_6263_6465]
}

/// The words of a delete of the field `key` by the term `abcdef`.
pub fn delete_of_six() -> [u64; 4]
    ensures { IsOperation result }
{
    [
        0x3_0000_0011,
        0x0000_0003_6b65_7900,
        0x0000_0661_6263_6465,
        0x6600_0000_0000_0000,
    ]
}
