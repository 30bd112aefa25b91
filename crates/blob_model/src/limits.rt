ghost use Rattle.std.specs.Prelude.{◌≡◌, ◌≤◌};

use std::marker::Model;

/// How much a store takes. No field is above the greatest value that a store is built for.
#[derive(Clone, Copy)]
pub struct Limits {
    /// The greatest size of a blob, in bytes.
    pub max_size: u64,
    /// The greatest version of a blob.
    pub max_versions: u64,
    /// The most updates of one blob that are numbered and not published.
    pub max_open: u64,
    /// The most blobs.
    pub max_blobs: u64,
}

impl Model for Limits {
    ghost use Rattle.blob_model.specs.Limits.{Bounds, IsWithin};

    ghost Value = { Bounds };

    ghost view = { λ l. record { max_size = l.max_size; max_versions = l.max_versions; max_open = l.max_open; max_blobs = l.max_blobs } };

    ghost invariant = { λ l. IsWithin (record { max_size = l.max_size; max_versions = l.max_versions; max_open = l.max_open; max_blobs = l.max_blobs }) };

    ghost inverse = { λ b. record { max_size = b.max_size; max_versions = b.max_versions; max_open = b.max_open; max_blobs = b.max_blobs } };
}

impl Limits {
    ghost use Rattle.blob_model.specs.Limits.{greatest, IsWithin};

    /// The greatest limits: blobs of 2^40 bytes, 1,048,576 versions of each, 64 waiting updates of each, 65,535 blobs.
    pub fn greatest() -> Limits
        ensures { result ≡ greatest }
    {
        Limits {
            max_size: 1 << 40,
            max_versions: 1_048_576,
            max_open: 64,
            max_blobs: 65_535,
        }
    }
}
