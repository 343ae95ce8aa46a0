//! Every entry in a run was asked. In every run of the world without bytes, from nothing, each entry that a node keeps, reports,
//! proposes, has waiting or has learned, and each entry in a frame and in a learn line, is of a client of the deployment, which
//! was told to ask this very command and took it under this number; and its ring is the one that orders the command.
//!
//! What was asked is `asked_in`: for each client and number the command that the client took under it, a function of the run. So a
//! number has one command, and all numbers are below the client's next one.
//!
//! The functions of this crate have empty bodies: their contracts are the laws. They ask nothing of the deployment but where a
//! clause names `IsValid`.
#![tactic(auto)]

ghost use Rattle.std.specs.List.{AllByRecursion};
ghost use Rattle.std.specs.Prelude.{◌≡◌, ◌<◌, ◌≤◌, ◌++◌, ◌∷◌, [], List, ℕ, Option, Some, Ok};
ghost use Rattle.mrp_types.specs.declared.value.Entry.{Entry};
ghost use Rattle.mrp_types.specs.declared.value.Value.{Value};
ghost use Rattle.command_codec.specs.declared.command.Command.{Command};
ghost use Rattle.command_codec.specs.Grammar.{command_of};
ghost use Rattle.mrp_config.specs.Config.{Config};
ghost use Rattle.mrp_config.specs.Valid.{IsValid};
ghost use Rattle.plain_model.specs.Fold.{entries_of_value};
ghost use Rattle.plain_model.specs.Lines.{learnings};
ghost use Rattle.state_laws.specs.Books.{IsOfBytes, AreOfBytes};
ghost use Rattle.bare_world.specs.Worlds.{Happening, nothing};
ghost use Rattle.bare_world.specs.Runs.{run, MayRun};
ghost use Rattle.ask_laws.specs.Carried.{ValueCarries, WorldCarries};
ghost use Rattle.ask_laws.specs.Asks.{asked_in, IsAsked, WasTold, ClientsKeep};
ghost use Rattle.ask_laws.specs.Example.{config, a_run, learned, entry};

/// In every run each value is Skip or the one spelling of a batch whose entries were asked on its ring: in a vote that is kept,
/// on either state that the disk of a node that is down may stand for, in a report, in a proposal that is outstanding, in what was
/// learned, in a Promise, Accept, Decide or Chosen frame, in a learn line, in what was ever recorded and in what an opening read.
/// So was each command that waits and each in a Submit frame. A client sends its own commands alone, with hops 0. No step records an
/// epoch. In a valid deployment each ready replica keeps a valid state of bytes, and each checkpoint, each part of one in a frame and
/// what was gathered of one is of bytes.
pub fn entries_were_asked()
    ensures { (config : Config) (hs : List Happening) → MayRun config nothing hs → WorldCarries (IsAsked config (asked_in config hs)) (IsValid config) (run config hs nothing) }
{}

/// What was taken is a command with a spelling, of a client of the deployment, under a number from 1 to 2 ^ 63 - 1 below the
/// client's next one, and a ring orders it. What a client waits for it took under the number before its next one.
pub fn clients_take_in_turn()
    ensures { (config : Config) (hs : List Happening) → MayRun config nothing hs → ClientsKeep config (asked_in config hs) (run config hs nothing).clients }
{}

/// What was asked was told: at some time in the run the client was told to ask this command, while it waited for no answer and
/// this was its next number.
pub fn what_was_asked_was_told()
    ensures { (config : Config) (hs : List Happening) (c s : ℕ) (command : Command) → asked_in config hs c s ≡ Some command → WasTold config hs nothing c s command }
{}

/// What was asked stays asked as the run goes on.
pub fn what_was_asked_stays()
    ensures { (config : Config) (first second : List Happening) (ring : ℕ) (e : Entry) → IsAsked config (asked_in config first) ring e →
        IsAsked config (asked_in config (first ++ second)) ring e }
{}

/// Two entries of one client with one number have the same command, on the same ring.
pub fn a_number_has_one_command()
    ensures { (config : Config) (asked : ℕ → ℕ → Option Command) (ring other : ℕ) (a b : Entry) → IsAsked config asked ring a → IsAsked config asked other b →
        a.client.0 ≡ b.client.0 → a.seq ≡ b.seq → (ring ≡ other) × (a.command ≡ b.command) }
{}

/// No entry has a number above the last one that its client took.
pub fn numbers_are_below_the_next()
    ensures { (config : Config) (hs : List Happening) (ring : ℕ) (e : Entry) → MayRun config nothing hs → IsAsked config (asked_in config hs) ring e →
        (1 ≤ e.seq) × (e.seq < ((run config hs nothing).clients e.client.0).next) }
{}

/// The entries that are read of a value are those that it spells: so each of them was asked.
pub fn values_spell_asked_entries()
    ensures { (config : Config) (asked : ℕ → ℕ → Option Command) (ring : ℕ) (value : Value) → ValueCarries (IsAsked config asked) ring value →
        AllByRecursion (IsAsked config asked ring) (entries_of_value value) }
{}

/// An entry's bytes are read as the command that its client took.
pub fn entries_are_read_as_asked()
    ensures { (config : Config) (hs : List Happening) (ring : ℕ) (e : Entry) → IsAsked config (asked_in config hs) ring e →
        (command : Command) × (asked_in config hs e.client.0 e.seq ≡ Some command) × (command_of e.command ≡ Ok command) }
{}

/// In a valid deployment each value is of bytes, and so are all values of the book.
pub fn values_are_of_bytes()
    ensures value { (config : Config) (hs : List Happening) (ring : ℕ) (value : Value) → IsValid config →
        ValueCarries (IsAsked config (asked_in config hs)) ring value → IsOfBytes value }
    ensures book { (config : Config) (hs : List Happening) → IsValid config → MayRun config nothing hs →
        AreOfBytes (learnings (run config hs nothing).lines) }
{}

/// A run that meets these premises, on a valid deployment of one node and one client: the command that the client asks is learned.
pub fn a_command_is_learned()
    ensures valid { IsValid config }
    ensures may { MayRun config nothing a_run }
    ensures learned { learnings (run config a_run nothing).lines ≡ learned ∷ [] }
    ensures asked { IsAsked config (asked_in config a_run) 0 entry }
{}
