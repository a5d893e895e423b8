//! Small guest programs as ELF files, assembled from instruction words.

ghost use Rattle.std.specs.Prelude.{◌≡◌, ◌++◌, IfOk, OnOk, length};
ghost use Rattle.test_support.specs.Files.{words_size, file_of, bytes_of};

use std::alloc::{AllocError, Global};

/// The ELF header, and the program header up to p_filesz: one segment at 0x10000, whose bytes are at offset 84.
const FRONT: [u8; 68] = [
    0x7F, 0x45, 0x4C, 0x46, 0x01, 0x01, 0x01, 0x00, 0x00, 0x00, 0x00, 0x00, 0x00, 0x00, 0x00, 0x00,
    0x02, 0x00, 0xF3, 0x00, 0x01, 0x00, 0x00, 0x00, 0x00, 0x00, 0x01, 0x00, 0x34, 0x00, 0x00, 0x00,
    0x00, 0x00, 0x00, 0x00, 0x00, 0x00, 0x00, 0x00, 0x34, 0x00, 0x20, 0x00, 0x01, 0x00, 0x00, 0x00,
    0x00, 0x00, 0x00, 0x00, 0x01, 0x00, 0x00, 0x00, 0x54, 0x00, 0x00, 0x00, 0x00, 0x00, 0x01, 0x00,
    0x00, 0x00, 0x01, 0x00,
];

/// p_flags (readable and executable) and p_align, which follow p_filesz and p_memsz.
const BACK: [u8; 8] = [0x05, 0x00, 0x00, 0x00, 0x04, 0x00, 0x00, 0x00];

/// Returns the number of bytes of the words, for a field of the file.
fn words_size(words: &[u32]) -> u32
    ensures { result ≡ words_size (length words.now) }
{
    u32::try_from(words.len().saturating_mul(4)).unwrap_or(u32::MAX)
}

/// Returns the file of a program: its words at 0x10000, which is its entry, and nothing else.
pub fn program(alloc: Global, words: &[u32]) -> Result<Vec<u8>, AllocError>
    ensures { IfOk result (λ file. file.items ≡ file_of words.now (words_size (length words.now))) }
{
    let size = words_size(words);
    sized_program(alloc, words, size)
}

/// Returns the file of a program whose segment has `memsz` bytes in memory (p_memsz): its words at 0x10000, and zeros after them.
#[tactic(auto, unfolding(crate::specs::Files::file_of))]
pub fn sized_program(alloc: Global, words: &[u32], memsz: u32) -> Result<Vec<u8>, AllocError>
    ensures { IfOk result (λ file. file.items ≡ file_of words.now memsz) }
{
    let mut file = Vec::new(alloc);
    file.extend_from_slice(&FRONT)?;
    file.extend_from_slice(&words_size(words).to_le_bytes())?;
    file.extend_from_slice(&memsz.to_le_bytes())?;
    file.extend_from_slice(&BACK)?;
    push_words(&mut file, words)?;
    Ok(file)
}

/// Appends words, the lowest byte of each first.
#[tactic(auto, unfolding(crate::specs::Files::bytes_of), using(std::proofs::Common::append_assoc))]
pub fn push_words(file: &mut Vec<u8>, words: &[u32]) -> Result<(), AllocError>
    ensures { OnOk result (file.new.items ≡ file.old.items ++ bytes_of words.now) }
{
    for word in words {
        file.extend_from_slice(&word.to_le_bytes())?;
    }
    Ok(())
}
