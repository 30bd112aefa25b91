// The pieces that a load writes, and what is counted in them.
ghost use Rattle.std.specs.Prelude.{◌≡◌, ◌*◌, ◌^◌, ◌<◌, ◌≤◌, length, sum};
ghost use Rattle.workload_law.specs.Pieces.{record_of, cell_of, in_order_of, is_in_order};

/// The record of a worker's operation: the worker and then the operation, each as 8 bytes with the highest first.
pub fn record(worker: u64, op: u64) -> [u8; 16]
    ensures { result ≡ record_of worker op }
{
    let mut piece = [0; 16];
    piece[..8].copy_from_slice(&worker.to_be_bytes());
    piece[8..].copy_from_slice(&op.to_be_bytes());
    piece
}

/// The cell of a worker's operation: byte `j` is the sum of the seed, the worker, the operation and `j`, modulo 256. No seed is too
/// large for it.
pub fn cell(seed: u64, worker: u64, op: u64) -> [u8; 16]
    ensures { result ≡ cell_of seed worker op }
{
    let first = seed % 256 + worker % 256 + op % 256;
    let mut piece = [0; 16];
    for index in 0..16 {
        piece[index] = ((first + index as u64) % 256) as u8;
    }
    piece
}

/// For how many of the workers, which count from 1, the records stand in some bytes once each, and in the order of the worker's
/// operations.
pub fn in_order(bytes: &[u8], workers: u32, ops: u32) -> u32
    ensures { result ≡ in_order_of workers ops bytes.now }
{
    let mut count = 0;
    for before in 0..workers {
        if stands_in_order(bytes, before as u64 + 1, ops as u64) {
            count += 1;
        }
    }
    count
}

/// Whether a worker's records stand in some bytes once each, and in the order of its operations.
fn stands_in_order(bytes: &[u8], worker: u64, ops: u64) -> bool
    ensures { result ≡ is_in_order ops bytes.now worker }
{
    let mut next = 0;
    for k in 0..bytes.len() / 16 {
        let piece = &bytes[16 * k..16 * k + 16];
        if &piece[..8] == worker.to_be_bytes().as_slice() {
            if next == ops || piece != record(worker, next).as_slice() {
                return false;
            }
            next += 1;
        }
    }
    next == ops
}

/// The sum of some bytes, of which there are at most as many as a blob may have.
pub fn byte_sum(bytes: &[u8]) -> u64
    requires { length bytes.now ≤ 2 ^ 40 }
    ensures { result ≡ sum bytes.now }
{
    bytes.iter().map(|byte| *byte as u64).sum()
}
