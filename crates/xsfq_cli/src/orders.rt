//! What the words of a command line order.

ghost use Rattle.std.specs.Prelude.{◌≡◌, ◌∷◌, IfSome, Some, map};
ghost use Rattle.xsfq_cli.specs.Workloads.{IsInRange};
ghost use Rattle.std.specs.String.{string_bytes};
ghost use Rattle.xsfq_cli.specs.Orders.{ask_of, asks_any, asks_compilation, asks_simulation, format_of, mixed_of, no_options, options_with, order_of, order_with, schedule_of, trace_of, unless, with_option, workload_of, workload_with};

use cell_netlist::{Ask, Version};
use pulse_traces::DeliveryOrder;
use word_scan::plain_decimal;

/// A command and what it is asked for.
#[derive(Clone, Copy, Debug, PartialEq, Eq)]
pub enum Order {
    /// Compile a source to a netlist of this version, with these rails of each output port.
    Compile(Ask, Version),
    /// Check whether a netlist is sound.
    Check,
    /// Report what a sound netlist costs and how deep it is.
    Report,
    /// Simulate a netlist on vectors by this schedule, and write the deliveries too where that is asked for.
    Simulate(Schedule, bool),
    /// Make a counter of so many bits, from 1 to 4,096, compile it, simulate it and report on it.
    Workload(u32),
}

/// What says which of the pending pulses is delivered next.
#[derive(Clone, Copy, Debug, PartialEq, Eq)]
pub enum Schedule {
    /// An order of deliveries.
    Order(DeliveryOrder),
    /// Scripts of the input, one for each phase.
    Script,
}

/// The values of the options of all commands, where they are given.
#[derive(Clone, Copy, Debug, PartialEq, Eq)]
pub struct Options {
    pub(crate) rails: Option<Ask>,
    pub(crate) format: Option<Version>,
    pub(crate) schedule: Option<Schedule>,
    pub(crate) trace: Option<bool>,
}

const NO_OPTIONS: Options = Options {
    rails: None,
    format: None,
    schedule: None,
    trace: None,
};

impl Order {
    /// The order of the words after the program's name, or None where they order nothing. The first word is the
    /// command. Pairs of an option and its value follow in any order, each option at most once: for `compile`
    /// the options `--rails` with `p`, `n` or `both`, which is `p` where it isn't given, and `--format` with `1` or `2`, which is `1` where it
    /// isn't given; for `simulate` the options
    /// `--order` with `first`, `last`, `mix:` and a plain decimal below 2^32, or `script`, which is `first` where it
    /// isn't given, and `--trace` with `yes` or `no`, which is `no` where it isn't given. `check` and `report` have no
    /// options. `workload` is followed by one plain decimal from 1 to 4,096.
    pub fn from_words(words: &[String]) -> Option<Order>
        ensures order { result ≡ order_of (map string_bytes words.now) }
        ensures range { IfSome result (λ order. IsInRange order) }
    {
        match words {
            [] => None,
            [command, others @ ..] => Order::with_words(command.as_str(), others),
        }
    }

    /// The order of a command with the words after it.
    fn with_words(command: &str, others: &[String]) -> Option<Order>
        ensures { result ≡ order_of (command.now ∷ map string_bytes others.now) }
    {
        match command {
            "workload" => workload_of(others),
            _ => Order::with_options(command, Options::from_pairs(others)?),
        }
    }

    /// The order of a command with options.
    fn with_options(command: &str, options: Options) -> Option<Order>
        ensures { result ≡ order_with command.now options }
    {
        match command {
            "compile" => unless(
                options.asks_simulation(),
                Order::Compile(
                    options.rails.unwrap_or(Ask::Pos),
                    options.format.unwrap_or(Version::One),
                ),
            ),
            "check" => unless(options.asks_any(), Order::Check),
            "report" => unless(options.asks_any(), Order::Report),
            "simulate" => unless(
                options.asks_compilation(),
                Order::Simulate(
                    options
                        .schedule
                        .unwrap_or(Schedule::Order(DeliveryOrder::First)),
                    options.trace.unwrap_or(false),
                ),
            ),
            _ => None,
        }
    }
}

impl Options {
    /// The options that pairs of words give.
    fn from_pairs(words: &[String]) -> Option<Options>
        ensures { result ≡ options_with (Some no_options) (map string_bytes words.now) }
    {
        let mut options = NO_OPTIONS;
        let mut at = 0;
        while at + 1 < words.len() {
            match options.with(words[at].as_str(), words[at + 1].as_str()) {
                Some(more) => options = more,
                None => return None,
            }
            at += 2;
        }
        if at < words.len() {
            None
        } else {
            Some(options)
        }
    }

    /// The options with one more.
    fn with(self, name: &str, value: &str) -> Option<Options>
        ensures { result ≡ with_option self name.now value.now }
    {
        let mut options = self;
        match name {
            "--rails" if self.rails.is_none() => options.rails = Some(ask_of(value)?),
            "--format" if self.format.is_none() => options.format = Some(format_of(value)?),
            "--order" if self.schedule.is_none() => options.schedule = Some(schedule_of(value)?),
            "--trace" if self.trace.is_none() => options.trace = Some(trace_of(value)?),
            _ => return None,
        }
        Some(options)
    }

    /// Whether any option is given.
    fn asks_any(self) -> bool
        ensures { result ≡ asks_any self }
    {
        self.asks_compilation() || self.asks_simulation()
    }

    /// Whether an option of `compile` is given.
    fn asks_compilation(self) -> bool
        ensures { result ≡ asks_compilation self }
    {
        self.rails.is_some() || self.format.is_some()
    }

    /// Whether an option of `simulate` is given.
    fn asks_simulation(self) -> bool
        ensures { result ≡ asks_simulation self }
    {
        self.schedule.is_some() || self.trace.is_some()
    }
}

/// An order, unless an option was given that it hasn't.
fn unless(given: bool, order: Order) -> Option<Order>
    ensures { result ≡ unless given order }
{
    if given { None } else { Some(order) }
}

/// The order of the words after `workload`.
fn workload_of(words: &[String]) -> Option<Order>
    ensures { result ≡ workload_of (map string_bytes words.now) }
{
    match words {
        [word] => workload_with(plain_decimal(word.as_str().as_bytes())?),
        _ => None,
    }
}

/// The order of a counter of so many bits.
fn workload_with(bits: u32) -> Option<Order>
    ensures { result ≡ workload_with (Some bits) }
{
    if 0 < bits && bits <= 4096 {
        Some(Order::Workload(bits))
    } else {
        None
    }
}

/// The rails that a word asks for.
fn ask_of(word: &str) -> Option<Ask>
    ensures { result ≡ ask_of word.now }
{
    match word {
        "p" => Some(Ask::Pos),
        "n" => Some(Ask::Neg),
        "both" => Some(Ask::Both),
        _ => None,
    }
}

/// The version that a word asks for.
fn format_of(word: &str) -> Option<Version>
    ensures { result ≡ format_of word.now }
{
    match word {
        "1" => Some(Version::One),
        "2" => Some(Version::Two),
        _ => None,
    }
}

/// The schedule that a word asks for.
fn schedule_of(word: &str) -> Option<Schedule>
    ensures { result ≡ schedule_of word.now }
{
    match word {
        "first" => Some(Schedule::Order(DeliveryOrder::First)),
        "last" => Some(Schedule::Order(DeliveryOrder::Last)),
        "script" => Some(Schedule::Script),
        _ => mixed_of(word.as_bytes()),
    }
}

/// The mixed order of a word: `mix:` and a plain decimal.
fn mixed_of(word: &[u8]) -> Option<Schedule>
    ensures { result ≡ mixed_of word.now }
{
    let number = plain_decimal(word.strip_prefix(b"mix:")?)?;
    Some(Schedule::Order(DeliveryOrder::Mix(number)))
}

/// Whether a word asks for the deliveries.
fn trace_of(word: &str) -> Option<bool>
    ensures { result ≡ trace_of word.now }
{
    match word {
        "yes" => Some(true),
        "no" => Some(false),
        _ => None,
    }
}
