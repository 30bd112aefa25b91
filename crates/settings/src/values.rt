// What was given, and the settings that come of it.
ghost use Rattle.std.specs.Prelude.{◌≡◌, ℕ, ◌<◌, ◌^◌, [], Some, string_bytes};
ghost use Rattle.std.specs.Option.{ForSome};
ghost use Rattle.settings.specs.Values.{nothing, with_number, IsOf};

use crate::table::Key;
use blob_model::Limits;
use std::marker::Model;

/// A text that may have been given, which is empty where none was. Contracts see its bytes.
#[derive(Debug, Drop)]
pub struct Text {
    text: Option<String>,
}

impl Model for Text {
    ghost use Rattle.std.specs.Prelude.{ℕ, List, [], option_map, unwrap_or, string_bytes};

    ghost Value = { List ℕ };

    ghost view = { λ t. unwrap_or (option_map string_bytes t.text) [] };
}

impl Text {
    /// The text that was given. Takes no memory.
    pub fn of(text: String) -> Text
        ensures { result ≡ string_bytes text }
    {
        Text { text: Some(text) }
    }

    /// No text was given. Takes no memory.
    pub fn empty() -> Text
        ensures { result ≡ [] }
    {
        Text { text: None }
    }

    /// The text.
    pub fn as_str(&self) -> &str
        ensures { result.now ≡ self.now }
    {
        match &self.text {
            None => "",
            Some(text) => text.as_str(),
        }
    }
}

/// What the words of the command line give, or a settings file: each setting or nothing. A number that is given is one of
/// its option's range.
#[derive(Debug, Drop)]
pub struct Given {
    /// The bytes of a page.
    pub page: Option<u64>,
    /// The providers of the store.
    pub providers: Option<u32>,
    /// The providers that each page is kept by.
    pub replicas: Option<u32>,
    /// The greatest size of a blob, in bytes.
    pub max_size: Option<u64>,
    /// The greatest version of a blob.
    pub max_versions: Option<u64>,
    /// The most updates of one blob that are numbered and not published.
    pub max_open: Option<u64>,
    /// The most blobs.
    pub max_blobs: Option<u64>,
    /// The threads that serve or write.
    pub workers: Option<u32>,
    /// The connections that a server takes before it ends.
    pub connections: Option<u32>,
    /// The number that the bytes of a load or a watch come of.
    pub seed: Option<u64>,
    /// The operations of each worker of a load, or of a watch.
    pub ops: Option<u32>,
    /// The readers of a watch.
    pub readers: Option<u32>,
    /// The address that a server listens on.
    pub listen: Option<Text>,
    /// The name of the settings file.
    pub settings: Option<Text>,
}

impl Model for Given {
    ghost use Rattle.settings.specs.Values.{GivenValues, IsGiven};

    ghost Value = { GivenValues };

    ghost view = { λ g. record {
      page = g.page;
      providers = g.providers;
      replicas = g.replicas;
      max_size = g.max_size;
      max_versions = g.max_versions;
      max_open = g.max_open;
      max_blobs = g.max_blobs;
      workers = g.workers;
      connections = g.connections;
      seed = g.seed;
      ops = g.ops;
      readers = g.readers;
      listen = g.listen;
      settings = g.settings;
    } };

    ghost invariant = { λ g. IsGiven (record {
      page = g.page;
      providers = g.providers;
      replicas = g.replicas;
      max_size = g.max_size;
      max_versions = g.max_versions;
      max_open = g.max_open;
      max_blobs = g.max_blobs;
      workers = g.workers;
      connections = g.connections;
      seed = g.seed;
      ops = g.ops;
      readers = g.readers;
      listen = g.listen;
      settings = g.settings;
    }) };
}

// A number that fits.
fn narrow(number: Option<u64>) -> Option<u32>
    requires { ForSome number (λ n. n < 2 ^ 32) }
    ensures { result ≡ number }
{
    match number {
        None => None,
        Some(number) => Some(number as u32),
    }
}

impl Given {
    /// Nothing was given.
    pub fn nothing() -> Given
        ensures { result ≡ nothing }
    {
        Given {
            page: None,
            providers: None,
            replicas: None,
            max_size: None,
            max_versions: None,
            max_open: None,
            max_blobs: None,
            workers: None,
            connections: None,
            seed: None,
            ops: None,
            readers: None,
            listen: None,
            settings: None,
        }
    }

    // With this number at a key, or with none there.
    pub(crate) fn with(mut self, key: Key, number: Option<u64>) -> Given
        requires { IsOf key number }
        ensures { result ≡ with_number key number self }
    {
        match key {
            Key::Page => self.page = number,
            Key::Providers => self.providers = narrow(number),
            Key::Replicas => self.replicas = narrow(number),
            Key::MaxSize => self.max_size = number,
            Key::MaxVersions => self.max_versions = number,
            Key::MaxOpen => self.max_open = number,
            Key::MaxBlobs => self.max_blobs = number,
            Key::Workers => self.workers = narrow(number),
            Key::Connections => self.connections = narrow(number),
            Key::Seed => self.seed = number,
            Key::Ops => self.ops = narrow(number),
            Key::Readers => self.readers = narrow(number),
        }
        self
    }

    // With these texts in place of its own.
    pub(crate) fn with_texts(mut self, listen: Option<Text>, settings: Option<Text>) -> Given
        ensures { result ≡ record self { listen = listen; settings = settings } }
    {
        self.listen = listen;
        self.settings = settings;
        self
    }
}

/// The settings of a program. Each is one of its option's range, and the replicas are at most the providers.
#[derive(Drop)]
pub struct Settings {
    /// The bytes of a page: 2^i for an i from 2 to 20.
    pub page: u64,
    /// The providers of the store, 1 to 64.
    pub providers: u32,
    /// The providers that each page is kept by, 1 to 8 and at most all of them.
    pub replicas: u32,
    /// How much the store takes.
    pub limits: Limits,
    /// The threads that serve or write, 1 to 16.
    pub workers: u32,
    /// The connections that a server takes before it ends, at least 1.
    pub connections: u32,
    /// The number that the bytes of a load or a watch come of.
    pub seed: u64,
    /// The operations of each worker of a load, or of a watch, 1 to 4,096.
    pub ops: u32,
    /// The readers of a watch, 1 to 16.
    pub readers: u32,
    /// The address that a server listens on, or nothing.
    pub listen: Text,
    /// The name of the settings file, or nothing.
    pub settings: Text,
}

impl Model for Settings {
    ghost use Rattle.settings.specs.Values.{SettingsValues, IsSettled};

    ghost Value = { SettingsValues };

    ghost view = { λ s. record {
      page = s.page;
      providers = s.providers;
      replicas = s.replicas;
      limits = s.limits;
      workers = s.workers;
      connections = s.connections;
      seed = s.seed;
      ops = s.ops;
      readers = s.readers;
      listen = s.listen;
      settings = s.settings;
    } };

    ghost invariant = { λ s. IsSettled (record {
      page = s.page;
      providers = s.providers;
      replicas = s.replicas;
      limits = s.limits;
      workers = s.workers;
      connections = s.connections;
      seed = s.seed;
      ops = s.ops;
      readers = s.readers;
      listen = s.listen;
      settings = s.settings;
    }) };
}
