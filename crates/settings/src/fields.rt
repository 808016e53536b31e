ghost use Rattle.std.specs.Prelude.{◌≤◌, Some};

use crate::addresses::{Address, AddressText};
use crate::faults::SettingsFault;
use crate::levels::LogLevel;
use crate::read::{address_at, level_at, number_at, truth_at};
use crate::table::{BUDGET, IDLE, Key, LISTEN, RING, SLOTS, STOP_AFTER, TARGET, WORKERS};
use std::fmt;
use toml::Table;

/// What a settings text sets, with defaults for the keys that it leaves out.
#[derive(Clone, Copy)]
pub struct Settings {
    /// The IPv4 address and port to which clients connect. With port 0 the system picks a port.
    pub listen: Address,
    /// The IPv4 address and port, at least 1, to which each connection is forwarded.
    pub target: Address,
    /// The bytes that are buffered for each direction of a connection, 1 to 65,536.
    pub ring: usize,
    /// The most calls that a thread makes for one connection before another gets its turn, 1 to 1,024.
    pub budget: u32,
    /// Worker threads, 1 to 16.
    pub workers: usize,
    /// The maximum number of connections at a time, 1 to 4,096.
    pub slots: usize,
    /// The relay ends once it has opened this many connections and all are closed; 0 for no such limit.
    pub stop_after: u32,
    /// The level of the messages on standard error.
    pub log: LogLevel,
    /// How many seconds a connection may move nothing before it fails, up to 86,400; 0 for no such limit.
    pub idle: u32,
    /// Whether the target is first sent a line of the PROXY protocol, version 1: the client's address, and the one on
    /// which it was accepted.
    pub proxy: bool,
    pub ghost target_port: { 1 ≤ target.1 },
    pub ghost ring_range: { (1 ≤ ring) × (ring ≤ 65536) },
    pub ghost budget_range: { (1 ≤ budget) × (budget ≤ 1024) },
    pub ghost workers_range: { (1 ≤ workers) × (workers ≤ 16) },
    pub ghost slots_range: { (1 ≤ slots) × (slots ≤ 4096) },
    pub ghost idle_range: { idle ≤ 86400 },
}

impl Settings {
    ghost use Rattle.std.specs.Prelude.{IfOk, IfErr, ◌∷◌, []};
    ghost use Rattle.toml.specs.View.{table_view};
    ghost use Rattle.settings.specs.{Table.{setting, keys, row_of, number, level, truth}, Document.{Gives, GivesEach, IsFirstFault}};

    /// The settings of a document that has no unknown key, or the fault of the first key that has a fault.
    pub(crate) fn of(document: &Table) -> Result<Settings, SettingsFault>
        ensures settings { IfOk result (λ s. GivesEach (table_view document.now) (setting s)) }
        ensures fault { IfErr result (IsFirstFault keys (table_view document.now)) }
    {
        let listen = address_at(document, LISTEN)?;
        let target = address_at(document, TARGET)?;
        let ring = number_at(document, RING)?;
        let budget = number_at(document, BUDGET)?;
        let workers = number_at(document, WORKERS)?;
        let (slots, stop_after, log, idle, proxy) = Settings::from_slots(document)?;
        Ok(Settings {
            listen,
            target,
            ring: ring as usize,
            budget,
            workers: workers as usize,
            slots: slots as usize,
            stop_after,
            log,
            idle,
            proxy,
        })
    }

    /// What a document sets from `slots` on, in the order of the keys.
    fn from_slots(document: &Table) -> Result<(u32, u32, LogLevel, u32, bool), SettingsFault>
        ensures settings { IfOk result (λ s. let doc = table_view document.now in
            Gives (row_of Key.Slots) doc (number s.0) × Gives (row_of Key.StopAfter) doc (number s.1)
            × Gives (row_of Key.Log) doc (level s.2) × Gives (row_of Key.Idle) doc (number s.3)
            × Gives (row_of Key.Proxy) doc (truth s.4) × (1 ≤ s.0) × (s.0 ≤ 4096) × (s.3 ≤ 86400)) }
        ensures fault { IfErr result (IsFirstFault (Key.Slots ∷ Key.StopAfter ∷ Key.Log ∷ Key.Idle ∷ Key.Proxy ∷ [])
            (table_view document.now)) }
    {
        let slots = number_at(document, SLOTS)?;
        let stop_after = number_at(document, STOP_AFTER)?;
        let log = level_at(document, Key::Log, LogLevel::Info)?;
        let idle = number_at(document, IDLE)?;
        let proxy = truth_at(document, Key::Proxy, false)?;
        Ok((slots, stop_after, log, idle, proxy))
    }
}

/// A line `KEY=VALUE` for each key, in the order of `Key`.
impl fmt::Display for Settings {
    ghost use Rattle.settings.specs.Document.{settings_text};

    ghost output = { λ s. Some (settings_text s) };

    fn fmt<W: fmt::Write>(&self, f: &mut fmt::Formatter<W>) -> fmt::Result {
        let (listen, target) = (AddressText(self.listen), AddressText(self.target));
        write!(
            f,
            "listen={listen}\ntarget={target}\nring={}\nbudget={}\nworkers={}\n",
            self.ring, self.budget, self.workers
        )?;
        write!(
            f,
            "slots={}\nstop_after={}\nlog={}\nidle={}\nproxy={}\n",
            self.slots, self.stop_after, self.log, self.idle, self.proxy
        )
    }
}
