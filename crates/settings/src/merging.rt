// The words and the settings file, put together.
ghost use Rattle.std.specs.Prelude.{◌≡◌, ℕ, ◌<◌, ◌≤◌, ◌^◌, ◌↔◌, [], IfOk, IsErr, IsTrue};
ghost use Rattle.std.specs.Int.{is_power_of_two};
ghost use Rattle.settings.specs.Table.{range_of, fits};
ghost use Rattle.settings.specs.Values.{IsOf, IsSettled};
ghost use Rattle.settings.specs.Merged.{chosen, chosen_text, merged};

use crate::table::Key;
use crate::values::{Given, Settings, Text};
use blob_model::Limits;
use thiserror::Error;

/// There are more replicas than providers.
#[derive(Clone, Copy, Debug, PartialEq, Eq, Error)]
#[error("more replicas than providers")]
pub struct MergeRefused;

// The number that the words give, or else the file, or else the default.
fn chosen_wide(key: Key, words: Option<u64>, file: Option<u64>) -> u64
    requires words { IsOf key words }
    requires file { IsOf key file }
    ensures is { result ≡ chosen key words file }
    ensures fits { IsTrue (fits (range_of key) result) }
{
    words.or(file).unwrap_or(key.setting().range.default)
}

// The same of a number of 32 bits.
fn chosen_narrow(key: Key, words: Option<u32>, file: Option<u32>) -> u32
    requires small { (range_of key).most < 2 ^ 32 }
    requires words { IsOf key words }
    requires file { IsOf key file }
    ensures is { result ≡ chosen key words file }
    ensures fits { IsTrue (fits (range_of key) result) }
{
    words.or(file).unwrap_or(key.setting().range.default as u32)
}

fn text_chosen(words: Option<Text>, file: Option<Text>) -> Text
    ensures { result ≡ chosen_text words file }
{
    words.or(file).unwrap_or(Text::empty())
}

/// The settings that the words and the file come to: the words win over the file, and the file over the defaults. A
/// setting that the command doesn't use is merged all the same. Takes no memory.
///
/// It is refused where, after merging, each page were to have more replicas than there are providers, and only there.
pub fn merge(words: Given, file: Given) -> Result<Settings, MergeRefused>
    ensures settings { IfOk result (λ settings. settings ≡ merged words file) }
    ensures refused { IsErr result ↔ ((merged words file).providers < (merged words file).replicas) }
    ensures settled { IfOk result IsSettled }
{
    let providers = chosen_narrow(Key::Providers, words.providers, file.providers);
    let replicas = chosen_narrow(Key::Replicas, words.replicas, file.replicas);
    if providers < replicas {
        return Err(MergeRefused);
    }
    let limits = Limits {
        max_size: chosen_wide(Key::MaxSize, words.max_size, file.max_size),
        max_versions: chosen_wide(Key::MaxVersions, words.max_versions, file.max_versions),
        max_open: chosen_wide(Key::MaxOpen, words.max_open, file.max_open),
        max_blobs: chosen_wide(Key::MaxBlobs, words.max_blobs, file.max_blobs),
    };
    Ok(Settings {
        page: chosen_wide(Key::Page, words.page, file.page),
        providers,
        replicas,
        limits,
        workers: chosen_narrow(Key::Workers, words.workers, file.workers),
        connections: chosen_narrow(Key::Connections, words.connections, file.connections),
        seed: chosen_wide(Key::Seed, words.seed, file.seed),
        ops: chosen_narrow(Key::Ops, words.ops, file.ops),
        readers: chosen_narrow(Key::Readers, words.readers, file.readers),
        listen: text_chosen(words.listen, file.listen),
        settings: text_chosen(words.settings, file.settings),
    })
}
