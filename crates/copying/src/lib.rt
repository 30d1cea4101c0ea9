// Bytes copied between lent slices. For all that the compiler knows two lent slices may share memory, so that it tests for that or goes byte by byte; what goes
// through a local block, or into a local array, is moved as a whole. The library's `copy_from_slice` has that test too, and is the C library's `memmove` where the
// number of bytes is not known before.
#![tactic(auto)]

ghost use Rattle.std.specs.Prelude.{◌≡◌, ◌+◌, ◌≤◌, length, drop};
ghost use Rattle.std.proofs.Math.Seq.{paste};
ghost use Rattle.copying.specs.Blocks.{block_bytes, front_bytes};

// Copies the first n bytes of src into out from an offset.
pub fn copy(src: &[u8], n: usize, out: &mut [u8], at: usize)
    requires n_in_bounds { n ≤ length src.now }
    requires n_in_bounds_2 { at + n ≤ length out.old }
    ensures { out.new ≡ paste out.old at src.now n }
{
    for i in 0..n {
        out[at + i] = src[i];
    }
}

// How many bytes a block has, and where the second, the third and the fourth one begin: the first begins behind the first byte.
const BLOCK: usize = 16;

const SECOND: usize = 1 + BLOCK;

const THIRD: usize = SECOND + BLOCK;

const FOURTH: usize = THIRD + BLOCK;

// Copies a block of src from an offset to the same place of out.
fn copy_block(src: &[u8], at: usize, out: &mut [u8])
    requires block_bytes_in_bounds { at + block_bytes ≤ length src.now }
    requires block_bytes_in_bounds_2 { at + block_bytes ≤ length out.old }
    ensures { out.new ≡ paste out.old at (drop at src.now) block_bytes }
{
    let mut block = [0u8; BLOCK];
    copy(&src[at..], BLOCK, &mut block, 0);
    copy(&block, BLOCK, out, at);
}

// Copies the first n bytes of src to the start of out: the first alone, then in blocks, at most four, of which the last may share bytes with the one before.
pub fn copy_front(src: &[u8], n: usize, out: &mut [u8])
    requires n_in_bounds { n ≤ length src.now }
    requires n_in_bounds_2 { n ≤ length out.old }
    requires n_le_front_bytes { n ≤ front_bytes }
    ensures { out.new ≡ paste out.old 0 src.now n }
{
    if n < SECOND {
        copy(src, n, out, 0);
        return;
    }
    copy(src, 1, out, 0);
    copy_block(src, 1, out);
    if n <= THIRD {
        copy_block(src, n - BLOCK, out);
        return;
    }
    copy_block(src, SECOND, out);
    if n <= FOURTH {
        copy_block(src, n - BLOCK, out);
        return;
    }
    copy_block(src, THIRD, out);
    copy_block(src, n - BLOCK, out);
}
