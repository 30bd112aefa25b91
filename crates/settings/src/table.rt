// The commands, their options, and the numbers that options and keys of the settings file take.
//
// This is the only place in the code that names them. A new command is a variant of `Command` with its list of options; a
// new number is a variant of `Key` with its setting.
ghost use Rattle.std.specs.Prelude.{◌≡◌, map};
ghost use Rattle.settings.specs.Table.{commands, keys, command_name, options_of, choice_name, is_needed, key_name, range_of, plain, fits, fits_in_file, command_named, key_named, is_in_file};

/// What the program is to do.
#[derive(Clone, Copy, Debug, PartialEq, Eq)]
pub enum Command {
    /// One session over the standard input and output, by lines.
    Run,
    /// A store for the connections that come to an address, by frames.
    Serve,
    /// Many writers of one shared log and one shared grid, as a measure of the store.
    Load,
    /// A node that keeps pages, over the standard input and output, by frames.
    Node,
    /// Lines about folders and files, from the standard input.
    Files,
    /// A writer, a keeper and standing readers of one blob, as a measure of the store.
    Watch,
}

/// A number that an option of the command line sets, and a key of the settings file too, except for the readers.
#[derive(Clone, Copy, Debug, PartialEq, Eq)]
pub enum Key {
    Page,
    Providers,
    Replicas,
    MaxSize,
    MaxVersions,
    MaxOpen,
    MaxBlobs,
    Workers,
    Connections,
    Seed,
    Ops,
    Readers,
}

/// An option that a command may be given.
#[derive(Clone, Copy)]
pub enum Choice {
    /// The option that sets a number.
    Number(Key),
    /// The name of the settings file.
    Settings,
    /// The address that the server listens on, which the command needs.
    Listen,
}

/// Which numbers a key takes.
#[derive(Clone, Copy)]
pub struct NumberRange {
    pub least: u64,
    pub most: u64,
    /// The greatest number in a settings file, where it is below `most`.
    pub most_in_file: u64,
    /// Only the powers of two.
    pub is_power: bool,
    /// The number where neither the words nor the file give one.
    pub default: u64,
}

/// What a key is called, as an option after two hyphens, and which numbers it takes.
#[derive(Clone, Copy)]
pub struct Setting {
    pub name: &'static str,
    pub range: NumberRange,
}

static RUN: [Choice; 8] = [
    Choice::Number(Key::Page),
    Choice::Number(Key::Providers),
    Choice::Number(Key::Replicas),
    Choice::Settings,
    Choice::Number(Key::MaxSize),
    Choice::Number(Key::MaxVersions),
    Choice::Number(Key::MaxOpen),
    Choice::Number(Key::MaxBlobs),
];

static SERVE: [Choice; 11] = [
    Choice::Number(Key::Page),
    Choice::Number(Key::Providers),
    Choice::Number(Key::Replicas),
    Choice::Settings,
    Choice::Number(Key::MaxSize),
    Choice::Number(Key::MaxVersions),
    Choice::Number(Key::MaxOpen),
    Choice::Number(Key::MaxBlobs),
    Choice::Listen,
    Choice::Number(Key::Workers),
    Choice::Number(Key::Connections),
];

static LOAD: [Choice; 7] = [
    Choice::Number(Key::Page),
    Choice::Number(Key::Providers),
    Choice::Number(Key::Replicas),
    Choice::Settings,
    Choice::Number(Key::Workers),
    Choice::Number(Key::Seed),
    Choice::Number(Key::Ops),
];

static WATCH: [Choice; 7] = [
    Choice::Number(Key::Page),
    Choice::Number(Key::Providers),
    Choice::Number(Key::Replicas),
    Choice::Settings,
    Choice::Number(Key::Seed),
    Choice::Number(Key::Ops),
    Choice::Number(Key::Readers),
];

static NODE: [Choice; 1] = [Choice::Number(Key::Page)];

/// Every command.
pub static COMMANDS: [Command; 6] = [
    Command::Run,
    Command::Serve,
    Command::Load,
    Command::Node,
    Command::Files,
    Command::Watch,
];

/// Every key.
pub static KEYS: [Key; 12] = [
    Key::Page,
    Key::Providers,
    Key::Replicas,
    Key::MaxSize,
    Key::MaxVersions,
    Key::MaxOpen,
    Key::MaxBlobs,
    Key::Workers,
    Key::Connections,
    Key::Seed,
    Key::Ops,
    Key::Readers,
];

impl Command {
    /// The word that names the command.
    pub fn name(self) -> &'static str
        ensures { result.now ≡ command_name self }
    {
        match self {
            Command::Run => "run",
            Command::Serve => "serve",
            Command::Load => "load",
            Command::Node => "node",
            Command::Files => "files",
            Command::Watch => "watch",
        }
    }

    /// The options that the command takes.
    pub fn options(self) -> &'static [Choice]
        ensures { result.now ≡ options_of self }
    {
        match self {
            Command::Run | Command::Files => RUN.as_slice(),
            Command::Serve => SERVE.as_slice(),
            Command::Load => LOAD.as_slice(),
            Command::Node => NODE.as_slice(),
            Command::Watch => WATCH.as_slice(),
        }
    }

    /// The command that a word names.
    pub fn named(word: &str) -> Option<Command>
        ensures { result ≡ command_named word.now }
    {
        COMMANDS
            .iter()
            .copied()
            .find(|command| command.name() == word)
    }
}

impl Choice {
    /// The option's name, which stands after two hyphens.
    pub fn name(self) -> &'static str
        ensures { result.now ≡ choice_name self }
    {
        match self {
            Choice::Number(key) => key.setting().name,
            Choice::Settings => "settings",
            Choice::Listen => "listen",
        }
    }

    /// Whether a command that takes the option needs it.
    pub fn is_needed(self) -> bool
        ensures { result ≡ is_needed self }
    {
        match self {
            Choice::Number(_) | Choice::Settings => false,
            Choice::Listen => true,
        }
    }
}

impl NumberRange {
    /// Whether the number is of the range.
    pub fn takes(&self, number: u64) -> bool
        ensures { result ≡ fits self.now number }
    {
        self.least <= number && number <= self.most && (!self.is_power || number.is_power_of_two())
    }

    /// Whether the number is of the range that a settings file has.
    pub fn takes_in_file(&self, number: u64) -> bool
        ensures { result ≡ fits_in_file self.now number }
    {
        self.takes(number) && number <= self.most_in_file
    }
}

// A setting of a name and a range that is the same in a file, with no more to it.
fn plain_setting(name: &'static str, least: u64, most: u64, default: u64) -> Setting
    ensures name { result.name.now ≡ name.entry.now }
    ensures range { result.range ≡ plain least most default }
{
    let range = NumberRange {
        least,
        most,
        most_in_file: most,
        is_power: false,
        default,
    };
    Setting { name, range }
}

// The setting of pages, which are powers of two.
fn page_setting() -> Setting
    ensures name { result.name.now ≡ key_name Key.Page }
    ensures range { result.range ≡ range_of Key.Page }
{
    let setting = plain_setting("page", 4, 1_048_576, 4096);
    let range = NumberRange {
        is_power: true,
        ..setting.range
    };
    Setting { range, ..setting }
}

// The setting of seeds: the numbers of a file end earlier.
fn seed_setting() -> Setting
    ensures name { result.name.now ≡ key_name Key.Seed }
    ensures range { result.range ≡ range_of Key.Seed }
{
    let setting = plain_setting("seed", 0, 18_446_744_073_709_551_615, 1);
    let range = NumberRange {
        most_in_file: 9_223_372_036_854_775_807,
        ..setting.range
    };
    Setting { range, ..setting }
}

impl Key {
    /// The key's name and range.
    pub fn setting(self) -> Setting
        ensures name { result.name.now ≡ key_name self }
        ensures range { result.range ≡ range_of self }
    {
        match self {
            Key::Page => page_setting(),
            Key::Providers => plain_setting("providers", 1, 64, 4),
            Key::Replicas => plain_setting("replicas", 1, 8, 2),
            Key::MaxSize => plain_setting("max-size", 1, 1_099_511_627_776, 1_099_511_627_776),
            Key::MaxVersions => plain_setting("max-versions", 1, 1_048_576, 1_048_576),
            Key::MaxOpen => plain_setting("max-open", 1, 64, 64),
            Key::MaxBlobs => plain_setting("max-blobs", 1, 65_535, 65_535),
            Key::Workers => plain_setting("workers", 1, 16, 4),
            Key::Connections => plain_setting("connections", 1, 4_294_967_295, 4_294_967_295),
            Key::Seed => seed_setting(),
            Key::Ops => plain_setting("ops", 1, 4096, 100),
            Key::Readers => plain_setting("readers", 1, 16, 2),
        }
    }

    // Whether a settings file may set the number.
    fn is_in_file(self) -> bool
        ensures { result ≡ is_in_file self }
    {
        !matches!(self, Key::Readers)
    }

    /// The key of a settings file that has that name.
    pub fn named(name: &str) -> Option<Key>
        ensures { result ≡ key_named name.now }
    {
        KEYS.iter()
            .copied()
            .find(|key| key.is_in_file() && key.setting().name == name)
    }
}
