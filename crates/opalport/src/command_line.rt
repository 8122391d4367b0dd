//! The words of the command line, and what they ask for.

ghost use Rattle.std.specs.Prelude.{◌≡◌, IfOk, true, map, option_map, option_and_then, string_bytes, codes};
ghost use Rattle.clap.specs.Words.{App, FailsBy, app_of, fault_of, first_of, found_of, new_app, rows_of, subcommand_rows_of, with_rule, with_subcommand};
ghost use Rattle.tool.specs.OptionTexts.{drive_text};
ghost use Rattle.opalport.specs.CommandLine.{top_line, option_rule, free_rule, required_rule, flag_rule, with_drive_rules, drive_line, drive_in, hba_line, explore_line, files_rule, judge_line, run_line, has_flag, way_in, repeated_rule, texts_in, optional_rule, threads_line, tokens_line, decode_line, opalport_line, text_of, naming_in, wanted_by, repeated_asked, asked_of, asked_by};

use crate::controller_help::LINES as CONTROLLER_LINES;
use crate::decode_help::KINDS;
use crate::explore_help::PARTS;
use crate::judge_help::TRANSCRIPTS;
use clap::{Arg, ArgAction, ArgMatches, Command, Error};
use hba_program::hba_tool::Way;
use std::alloc::{AllocError, Global};
use tool::{DriveTexts, Naming};

/// The options of a run, as they are written.
#[derive(Clone, Copy)]
pub struct RunTexts<'a> {
    pub drive: DriveTexts<'a>,
    /// Whether each refusal is told with its reason.
    pub explains: bool,
    /// Where the waveforms of the run are written; empty where none are wanted.
    pub vcd: &'a str,
}

/// The options that say how many clients make how many rounds, as they are written.
#[derive(Clone, Copy)]
pub struct LoadTexts<'a> {
    pub clients: &'a str,
    pub rounds: &'a str,
}

/// The options of a controller, as they are written.
#[derive(Drop)]
pub struct HbaTexts<'a> {
    pub drive: DriveTexts<'a>,
    pub ranges: Vec<&'a str>,
    /// How the host is served.
    pub way: Way,
    /// Where the waveforms are written; empty where none are wanted.
    pub vcd: &'a str,
}

/// The options of an exploration, as they are written.
#[derive(Drop)]
pub struct ExploreTexts<'a> {
    pub drive: DriveTexts<'a>,
    /// How long a list is at most.
    pub steps: &'a str,
    /// How many lists of one length are gone on from.
    pub limit: &'a str,
    /// A text that is looked for; empty where failures are.
    pub find: &'a str,
    /// Which part of the lists is run, where not all are.
    pub part: Option<&'a str>,
    /// Whether what parts printed is joined.
    pub merges: bool,
    /// The files that have what they printed.
    pub files: Vec<&'a str>,
}

/// The options of a judge, as they are written.
#[derive(Drop)]
pub struct JudgeTexts<'a> {
    pub drive: DriveTexts<'a>,
    /// The names of the freedoms that are given; none where all are.
    pub freedoms: Vec<&'a str>,
    /// Whether none is given.
    pub strict: bool,
    /// Whether nothing is told of what a freedom allows.
    pub quiet: bool,
}

/// A token stream that is to be told as text.
#[derive(Clone, Copy)]
pub struct TokenTexts<'a> {
    /// Its bytes, in hex.
    pub hex: &'a str,
    pub naming: Naming,
}

/// Bytes that are to be told as the lines of their fields.
#[derive(Clone, Copy)]
pub struct DecodeTexts<'a> {
    /// What they are.
    pub kind: &'a str,
    /// The bytes, in hex; empty where the input has them.
    pub hex: &'a str,
}

/// What a command line asks for.
#[derive(Drop)]
pub enum Request<'a> {
    /// To run a script on a drive.
    Run(RunTexts<'a>),
    /// To draw the run of a script on a drive.
    Draw(DriveTexts<'a>),
    /// To print the Level 0 discovery of a new drive.
    Level0(DriveTexts<'a>),
    /// To run clients and an engine at one port, each in a thread of its own.
    Threads(LoadTexts<'a>),
    /// To tell a token stream, written in hex, as text.
    Tokens(TokenTexts<'a>),
    /// To tell the fields of bytes, written in hex.
    Decode(DecodeTexts<'a>),
    /// To serve a host as a controller.
    Hba(HbaTexts<'a>),
    /// To run all short lists of the lines of a script.
    Explore(ExploreTexts<'a>),
    /// To judge what another drive answered to a script.
    Judge(JudgeTexts<'a>),
}

/// What `--s64a` does.
const WIDE: &str = "Addresses have 64 bits, and CAP.S64A is 1";

/// What `--explain` does.
const EXPLAINED: &str = "Tells each refusal with its reason, and what would lift it";

/// What `--vcd` does.
const WAVED: &str = "Writes the waveforms of the run there, while it runs";

/// What `run --help` says of lines and statuses.
const LINES: &str = "\
Lines, whose words stand between blanks; numbers are decimal, HH is two hex digits, HEX is hex text:
  range N START LENGTH RE WE RL WL  the cells of range N (0 to 16), before other lines
  read C T L N                      a queued read of client C under tag T (0 to 31),
                                    from sector L, N sectors (0 is 65536)
  write C T L N HH                  a queued write, whose bytes are all HH
  dread C L N                       an unqueued read
  dwrite C L N HH                   an unqueued write, whose bytes are all HH
  call C ID TSN HSN HEX             the tokens HEX to the ComID ID, in the session TSN, HSN
                                    (0 and 0: the session manager)
  send C ID HEX                     the ComPacket HEX to the ComID ID
  recv C ID BLOCKS                  so many blocks of 512 bytes from the ComID ID
                                    (1: Level 0 discovery)
  secin C P S BLOCKS                the same by the security protocol P, with S as SP Specific
                                    (0 and 0: the list of protocols, of a field or opal drive)
  secout C P S HEX                  the bytes HEX by it, with zeros to the end of a block
  identify C                        what the drive says that it is
  log C                             the log page of the last queued error
  reset C K                         a power cycle (K is 0) or a hardware reset (1)
  tper C                            the command that resets the drive, where TPerInfo lets it
  expect TEXT                       the last printed line is TEXT

Behind a first line `port` the lines are steps of an AHCI port, with range and expect as above:
  put C T REQUEST                   client C puts a request in slot T: read L N, write L N HH,
                                    dread L N, dwrite L N HH, call ID TSN HSN HEX, send ID HEX,
                                    recv ID BLOCKS, secin P S BLOCKS, secout P S HEX or identify
  issue T, accept T, complete T     the port issues it, the drive takes it, the drive ends it
  recover                           the port recovers from a failed command
  reset C K                         client C resets the port and the drive
  take C T                          client C takes its answer; the slot is free

A script whose first byte is # may hold comments, which are lines that begin with #, and blank lines.
On a drive it may write calls by the names of the standards, in the session that client C received:
  start C ID SP [AUTHORITY [PIN]]   a session by the ComID ID; a PIN is \"TEXT\" or xHEX
  get C OBJECT [FIRST [LAST]]       columns of an object, one column, or all
  set C OBJECT COLUMN=VALUE ..      a value is a PIN, a number or an object
  authenticate C AUTHORITY [PIN], activate C, revert C SP, begin C, commit C, abort C, end C

Status: 0 done, 1 an expectation failed, 2 a bad line, bad usage or an error";

/// Adds an option that takes a value, with the one that stands where it is left out.
fn with_option<'a>(
    command: Command<'a>,
    alloc: Global,
    name: &'static str,
    value: &'static str,
    default: &'static str,
    help: &'static str,
) -> Result<Command<'a>, AllocError>
    ensures { IfOk result (λ c. app_of c
        ≡ with_rule (app_of command.entry) (option_rule name.now default.now)) }
{
    let option = Arg::new(alloc, name)
        .long(name)
        .value_name(value)
        .default_value(default)
        .help(help);
    command.arg(option)
}

/// Adds an option that takes a value, and may be left out.
fn with_free_option<'a>(
    command: Command<'a>,
    alloc: Global,
    name: &'static str,
    value: &'static str,
    help: &'static str,
) -> Result<Command<'a>, AllocError>
    ensures { IfOk result (λ c. app_of c
        ≡ with_rule (app_of command.entry) (free_rule name.now)) }
{
    let option = Arg::new(alloc, name)
        .long(name)
        .value_name(value)
        .help(help);
    command.arg(option)
}

/// Adds an option without a value.
fn with_flag<'a>(
    command: Command<'a>,
    alloc: Global,
    name: &'static str,
    help: &'static str,
) -> Result<Command<'a>, AllocError>
    ensures { IfOk result (λ c. app_of c
        ≡ with_rule (app_of command.entry) (flag_rule name.now)) }
{
    let flag = Arg::new(alloc, name)
        .long(name)
        .action(ArgAction::SetTrue)
        .help(help);
    command.arg(flag)
}

/// Adds an argument that is wanted.
fn with_required<'a>(
    command: Command<'a>,
    alloc: Global,
    name: &'static str,
    value: &'static str,
    help: &'static str,
) -> Result<Command<'a>, AllocError>
    ensures { IfOk result (λ c. app_of c
        ≡ with_rule (app_of command.entry) (required_rule name.now)) }
{
    let argument = Arg::new(alloc, name)
        .value_name(value)
        .required(true)
        .help(help);
    command.arg(argument)
}

/// Adds an argument that may be left out.
fn with_optional<'a>(
    command: Command<'a>,
    alloc: Global,
    name: &'static str,
    value: &'static str,
    help: &'static str,
) -> Result<Command<'a>, AllocError>
    ensures { IfOk result (λ c. app_of c
        ≡ with_rule (app_of command.entry) (optional_rule name.now)) }
{
    let argument = Arg::new(alloc, name).value_name(value).help(help);
    command.arg(argument)
}

/// Adds an option that takes a value, as often as it is wanted.
fn with_repeated<'a>(
    alloc: Global,
    command: Command<'a>,
    name: &'static str,
    value: &'static str,
    help: &'static str,
) -> Result<Command<'a>, AllocError>
    ensures { IfOk result (λ c. app_of c
        ≡ with_rule (app_of command.entry) (repeated_rule name.now)) }
{
    let option = Arg::new(alloc, name)
        .long(name)
        .value_name(value)
        .action(ArgAction::Append)
        .help(help);
    command.arg(option)
}

/// Adds an argument that stands as often as it is wanted.
fn with_files<'a>(
    command: Command<'a>,
    alloc: Global,
    name: &'static str,
    help: &'static str,
) -> Result<Command<'a>, AllocError>
    ensures { IfOk result (λ c. app_of c
        ≡ with_rule (app_of command.entry) (files_rule name.now)) }
{
    let argument = Arg::new(alloc, name)
        .value_name("FILE")
        .action(ArgAction::Append)
        .help(help);
    command.arg(argument)
}

/// Adds the options that say which drive a command opens.
fn with_drive<'a>(command: Command<'a>, alloc: Global) -> Result<Command<'a>, AllocError>
    ensures { IfOk result (λ c. app_of c ≡ with_drive_rules (app_of command.entry)) }
{
    let profiles = "base; field: what unmodified drivers ask for beside it; or opal";
    let pin = "4f50414c4d534944";
    let sectors = "The number of sectors (1000; of an opal drive 524288)";
    let shadow = "The number of sectors of the MBR shadow (8; of an opal drive 262144)";
    let serial = "Serial number of a field or opal drive";
    let model = "Model number of a field or opal drive";
    let psid = "PIN on the label of a field or opal drive";
    let datastore = "Bytes of its DataStore (field: 4096; opal: 10485760)";
    let seed = "Seed of the random bytes of an opal drive (0)";
    let c = with_free_option(command, alloc, "sectors", "N", sectors)?;
    let c = with_free_option(c, alloc, "shadow", "N", shadow)?;
    let c = with_option(c, alloc, "msid", "HEX", pin, "The manufactured PIN")?;
    let c = with_option(c, alloc, "profile", "NAME", "base", profiles)?;
    let c = with_free_option(c, alloc, "serial", "TEXT", serial)?;
    let c = with_free_option(c, alloc, "model", "TEXT", model)?;
    let c = with_free_option(c, alloc, "psid", "HEX", psid)?;
    let c = with_free_option(c, alloc, "datastore", "N", datastore)?;
    with_free_option(c, alloc, "seed", "N", seed)
}

/// A command with what it is for, and what its help says behind its options.
fn named<'a>(
    alloc: Global,
    name: &'static str,
    about: &'static str,
    lines: &'static str,
) -> Command<'a>
    ensures { app_of result ≡ new_app name.now }
{
    Command::new(alloc, name).about(about).after_help(lines)
}

/// A command that opens a drive, with the options that say which.
fn drive_command<'a>(
    alloc: Global,
    name: &'static str,
    about: &'static str,
    lines: &'static str,
) -> Result<Command<'a>, AllocError>
    ensures { IfOk result (λ command. app_of command ≡ drive_line name.now) }
{
    with_drive(named(alloc, name, about, lines), alloc)
}

/// The command that runs a script, with the options that say on which drive, and whether it tells reasons.
fn run_command<'a>(alloc: Global) -> Result<Command<'a>, AllocError>
    ensures { IfOk result (λ command. app_of command ≡ run_line) }
{
    let c = drive_command(alloc, "run", "Runs a script from standard input", LINES)?;
    let c = with_flag(c, alloc, "explain", EXPLAINED)?;
    with_free_option(c, alloc, "vcd", "FILE", WAVED)
}

/// The command that runs clients and an engine at one port, with the options that say how many.
fn threads_command<'a>(alloc: Global) -> Result<Command<'a>, AllocError>
    ensures { IfOk result (λ command. app_of command ≡ threads_line) }
{
    let about = "Runs clients and an engine at one port, each in a thread of its own";
    let rounds = "The rounds of each client, 1 to 1000: a write of its sector, and a read of it";
    let c = named(alloc, "threads", about, "");
    let c = with_option(
        c,
        alloc,
        "clients",
        "N",
        "2",
        "The number of clients, 1 to 32",
    )?;
    with_option(c, alloc, "rounds", "N", "100", rounds)
}

/// The command that tells a token stream as text.
fn tokens_command<'a>(alloc: Global) -> Result<Command<'a>, AllocError>
    ensures { IfOk result (λ command. app_of command ≡ tokens_line) }
{
    let about = "Tells the item that a token stream spells, or what is wrong with it";
    let names = "Tells objects, methods and columns by their names";
    let c = named(alloc, "tokens", about, "");
    let c = with_required(c, alloc, "hex", "HEX", "The bytes of the tokens, in hex")?;
    with_flag(c, alloc, "names", names)
}

/// The command that tells bytes as the lines of their fields.
fn decode_command<'a>(alloc: Global) -> Result<Command<'a>, AllocError>
    ensures { IfOk result (λ command. app_of command ≡ decode_line) }
{
    let hex = "The bytes, in hex; without it they are read from standard input";
    let c = named(
        alloc,
        "decode",
        "Tells the fields of bytes, a line for each",
        KINDS,
    );
    let c = with_required(c, alloc, "kind", "KIND", "What the bytes are")?;
    with_optional(c, alloc, "hex", "HEX", hex)
}

/// The command that serves a host as a controller, with the options that say which drive.
fn hba_command<'a>(alloc: Global) -> Result<Command<'a>, AllocError>
    ensures { IfOk result (λ command. app_of command ≡ hba_line) }
{
    let about = "Serves a host over standard input and output, as an AHCI controller";
    let row = "The words of a script's range line: N START LENGTH RE WE RL WL";
    let c = drive_command(alloc, "hba", about, CONTROLLER_LINES)?;
    let c = with_repeated(alloc, c, "range", "ROW", row)?;
    let c = with_flag(c, alloc, "explain", EXPLAINED)?;
    let c = with_flag(c, alloc, "s64a", WIDE)?;
    with_free_option(c, alloc, "vcd", "FILE", WAVED)
}

/// The command that runs all short lists of the lines of a script, with the options that say on which drive, how long a
/// list is, and what is looked for.
fn explore_command<'a>(alloc: Global) -> Result<Command<'a>, AllocError>
    ensures { IfOk result (λ command. app_of command ≡ explore_line) }
{
    let about = "Runs all short lists of the lines of a script, and tells what they lead to";
    let limit = "How many lists of one length are gone on from, at most";
    let find = "A text of a printed line; without it failures are looked for";
    let c = drive_command(alloc, "explore", about, PARTS)?;
    let c = with_option(
        c,
        alloc,
        "steps",
        "N",
        "4",
        "How many lines a list has at most",
    )?;
    let c = with_option(c, alloc, "limit", "N", "100000", limit)?;
    let c = with_free_option(c, alloc, "find", "TEXT", find)?;
    let c = with_free_option(
        c,
        alloc,
        "part",
        "K/N",
        "Runs the Kth of N parts of the lists",
    )?;
    let c = with_flag(c, alloc, "merge", "Joins what the N parts printed to FILEs")?;
    with_files(c, alloc, "files", "What a part printed; in the order of K")
}

/// The command that judges what another drive answered to a script, with the options that say which drive the model is,
/// which freedoms are given, and whether what they allow is told.
fn judge_command<'a>(alloc: Global) -> Result<Command<'a>, AllocError>
    ensures { IfOk result (λ command. app_of command ≡ judge_line) }
{
    let about = "Judges what another drive answered to a script, from standard input";
    let freedom = "Gives this freedom alone, of those below; without it all";
    let c = drive_command(alloc, "judge", about, TRANSCRIPTS)?;
    let c = with_repeated(alloc, c, "freedom", "NAME", freedom)?;
    let c = with_flag(c, alloc, "strict", "Gives no freedom")?;
    with_flag(c, alloc, "quiet", "Tells nothing of what a freedom allows")
}

/// The program, before its commands are there.
fn top_command<'a>(alloc: Global) -> Command<'a>
    ensures { app_of result ≡ top_line }
{
    Command::new(alloc, "opalport")
        .version("0.2.0")
        .about("A self-locking drive behind an AHCI port, driven by a script")
        .subcommand_required(true)
        .arg_required_else_help(true)
}

/// Adds a command below another, where there was memory for it.
fn with_command<'a>(
    command: Command<'a>,
    below: Result<Command<'a>, AllocError>,
) -> Result<Command<'a>, AllocError>
    ensures { (line : App) → line.top.is_plain ≡ true → IfOk below.entry (λ b. app_of b ≡ line)
        → IfOk result (λ c. app_of c ≡ with_subcommand (app_of command.entry) line.top) }
{
    match below {
        Ok(below) => command.subcommand(below),
        Err(refused) => {
            drop(command);
            Err(refused)
        }
    }
}

/// The whole command line.
fn command<'a>(alloc: Global) -> Result<Command<'a>, AllocError>
    ensures { IfOk result (λ command. app_of command ≡ opalport_line) }
{
    let level0 = "Prints the Level 0 discovery of a new drive, in hex";
    let draw = "Draws the run of a script from standard input, as SVG";
    let c = with_command(top_command(alloc), run_command(alloc))?;
    let c = with_command(c, drive_command(alloc, "level0", level0, ""))?;
    let c = with_command(c, threads_command(alloc))?;
    let c = with_command(c, tokens_command(alloc))?;
    let c = with_command(c, decode_command(alloc))?;
    let c = with_command(c, hba_command(alloc))?;
    let c = with_command(c, drive_command(alloc, "draw", draw, ""))?;
    let c = with_command(c, explore_command(alloc))?;
    with_command(c, judge_command(alloc))
}

/// The text of an argument, as it is written.
fn text_of<'a>(matches: &ArgMatches<'a>, id: &str) -> &'a str
    ensures { result.now ≡ text_of id.now (rows_of (found_of matches.now)) }
{
    matches.get_str(id).unwrap_or("")
}

/// The text of an option that may be left out, as it is written.
fn free_text_of<'a>(matches: &ArgMatches<'a>, id: &str) -> Option<&'a str>
    ensures { option_map (λ s. s.now) result ≡ first_of id.now (rows_of (found_of matches.now)) }
{
    matches.get_str(id)
}

/// The options that say which drive.
fn drive_texts<'a>(matches: &ArgMatches<'a>) -> DriveTexts<'a>
    ensures { drive_text result ≡ drive_in (rows_of (found_of matches.now)) }
{
    DriveTexts {
        sectors: free_text_of(matches, "sectors"),
        shadow: free_text_of(matches, "shadow"),
        msid: text_of(matches, "msid"),
        profile: text_of(matches, "profile"),
        serial: free_text_of(matches, "serial"),
        model: free_text_of(matches, "model"),
        psid: free_text_of(matches, "psid"),
        datastore: free_text_of(matches, "datastore"),
        seed: free_text_of(matches, "seed"),
    }
}

/// Whether a flag is set.
fn has_flag(matches: &ArgMatches<'_>, name: &str) -> bool
    ensures { result ≡ has_flag name.now (rows_of (found_of matches.now)) }
{
    text_of(matches, name) == "true"
}

/// The options of a run.
fn run_texts<'a>(matches: &ArgMatches<'a>) -> RunTexts<'a>
    ensures drive { drive_text result.drive ≡ drive_in (rows_of (found_of matches.now)) }
    ensures explains { result.explains
        ≡ has_flag (codes "explain") (rows_of (found_of matches.now)) }
    ensures vcd { result.vcd.now ≡ text_of (codes "vcd") (rows_of (found_of matches.now)) }
{
    RunTexts {
        drive: drive_texts(matches),
        explains: has_flag(matches, "explain"),
        vcd: text_of(matches, "vcd"),
    }
}

/// The options of an exploration.
fn explore_texts<'a>(
    alloc: Global,
    matches: &ArgMatches<'a>,
) -> Result<ExploreTexts<'a>, AllocError>
    ensures drive { IfOk result (λ texts. drive_text texts.drive
        ≡ drive_in (rows_of (found_of matches.now))) }
    ensures steps { IfOk result (λ texts. texts.steps.now
        ≡ text_of (codes "steps") (rows_of (found_of matches.now))) }
    ensures limit { IfOk result (λ texts. texts.limit.now
        ≡ text_of (codes "limit") (rows_of (found_of matches.now))) }
    ensures find { IfOk result (λ texts. texts.find.now
        ≡ text_of (codes "find") (rows_of (found_of matches.now))) }
    ensures part { IfOk result (λ texts. option_map (λ s. s.now) texts.part
        ≡ first_of (codes "part") (rows_of (found_of matches.now))) }
    ensures merges { IfOk result (λ texts. texts.merges
        ≡ has_flag (codes "merge") (rows_of (found_of matches.now))) }
    ensures files { IfOk result (λ texts. map (λ s. s.now) texts.files.items
        ≡ texts_in (codes "files") (rows_of (found_of matches.now))) }
{
    let files = texts_in(alloc, matches, "files")?;
    let drive = drive_texts(matches);
    Ok(ExploreTexts {
        drive,
        steps: text_of(matches, "steps"),
        limit: text_of(matches, "limit"),
        find: text_of(matches, "find"),
        part: free_text_of(matches, "part"),
        merges: has_flag(matches, "merge"),
        files,
    })
}

/// The options that say how many clients make how many rounds.
fn load_texts<'a>(matches: &ArgMatches<'a>) -> LoadTexts<'a>
    ensures clients { result.clients.now
        ≡ text_of (codes "clients") (rows_of (found_of matches.now)) }
    ensures rounds { result.rounds.now ≡ text_of (codes "rounds") (rows_of (found_of matches.now)) }
{
    LoadTexts {
        clients: text_of(matches, "clients"),
        rounds: text_of(matches, "rounds"),
    }
}

/// The token stream, and how it is told.
fn token_texts<'a>(matches: &ArgMatches<'a>) -> TokenTexts<'a>
    ensures hex { result.hex.now ≡ text_of (codes "hex") (rows_of (found_of matches.now)) }
    ensures naming { result.naming ≡ naming_in (rows_of (found_of matches.now)) }
{
    TokenTexts {
        hex: text_of(matches, "hex"),
        naming: Naming::by_name(has_flag(matches, "names")),
    }
}

/// The bytes that are to be told, and what they are.
fn decode_texts<'a>(matches: &ArgMatches<'a>) -> DecodeTexts<'a>
    ensures kind { result.kind.now ≡ text_of (codes "kind") (rows_of (found_of matches.now)) }
    ensures hex { result.hex.now ≡ text_of (codes "hex") (rows_of (found_of matches.now)) }
{
    DecodeTexts {
        kind: text_of(matches, "kind"),
        hex: text_of(matches, "hex"),
    }
}

/// The texts of an option that is given as often as it is wanted.
fn texts_in<'a>(
    alloc: Global,
    matches: &ArgMatches<'a>,
    id: &str,
) -> Result<Vec<&'a str>, AllocError>
    ensures { IfOk result (λ texts. map (λ s. s.now) texts.items
        ≡ texts_in id.now (rows_of (found_of matches.now))) }
{
    let texts = Vec::from_slice(alloc, matches.get_strs(id).unwrap_or(&[]))?;
    Ok(texts)
}

/// The options of a controller.
fn hba_texts<'a>(alloc: Global, matches: &ArgMatches<'a>) -> Result<HbaTexts<'a>, AllocError>
    ensures drive { IfOk result (λ texts. drive_text texts.drive
        ≡ drive_in (rows_of (found_of matches.now))) }
    ensures ranges { IfOk result (λ texts. map (λ s. s.now) texts.ranges.items
        ≡ texts_in (codes "range") (rows_of (found_of matches.now))) }
    ensures way { IfOk result (λ texts. texts.way ≡ way_in (rows_of (found_of matches.now))) }
    ensures vcd { IfOk result (λ texts. texts.vcd.now
        ≡ text_of (codes "vcd") (rows_of (found_of matches.now))) }
{
    let ranges = texts_in(alloc, matches, "range")?;
    let drive = drive_texts(matches);
    Ok(HbaTexts {
        drive,
        ranges,
        way: Way::new(has_flag(matches, "explain"), has_flag(matches, "s64a")),
        vcd: text_of(matches, "vcd"),
    })
}

/// The options of a judge.
fn judge_texts<'a>(alloc: Global, matches: &ArgMatches<'a>) -> Result<JudgeTexts<'a>, AllocError>
    ensures drive { IfOk result (λ texts. drive_text texts.drive
        ≡ drive_in (rows_of (found_of matches.now))) }
    ensures freedoms { IfOk result (λ texts. map (λ s. s.now) texts.freedoms.items
        ≡ texts_in (codes "freedom") (rows_of (found_of matches.now))) }
    ensures strict { IfOk result (λ texts. texts.strict
        ≡ has_flag (codes "strict") (rows_of (found_of matches.now))) }
    ensures quiet { IfOk result (λ texts. texts.quiet
        ≡ has_flag (codes "quiet") (rows_of (found_of matches.now))) }
{
    let freedoms = texts_in(alloc, matches, "freedom")?;
    let drive = drive_texts(matches);
    Ok(JudgeTexts {
        drive,
        freedoms,
        strict: has_flag(matches, "strict"),
        quiet: has_flag(matches, "quiet"),
    })
}

/// What a subcommand asks for that takes an option as often as it is wanted.
fn repeated_request<'a>(
    alloc: Global,
    name: &str,
    matches: &ArgMatches<'a>,
) -> Result<Option<Request<'a>>, AllocError>
    ensures { IfOk result (λ request. option_map wanted_by request
        ≡ repeated_asked name.now (rows_of (found_of matches.now))) }
{
    match name {
        "hba" => {
            let texts = hba_texts(alloc, matches)?;
            Ok(Some(Request::Hba(texts)))
        }
        "judge" => {
            let texts = judge_texts(alloc, matches)?;
            Ok(Some(Request::Judge(texts)))
        }
        "explore" => {
            let texts = explore_texts(alloc, matches)?;
            Ok(Some(Request::Explore(texts)))
        }
        _ => Ok(None),
    }
}

/// What the matches of a command line ask for.
fn request_in<'a>(
    alloc: Global,
    matches: &ArgMatches<'a>,
) -> Result<Option<Request<'a>>, AllocError>
    ensures { IfOk result (λ request. option_map wanted_by request ≡ option_and_then asked_of
        (subcommand_rows_of matches.now)) }
{
    let Some((name, matches)) = matches.subcommand() else {
        return Ok(None);
    };
    match name {
        "run" => Ok(Some(Request::Run(run_texts(matches)))),
        "level0" => Ok(Some(Request::Level0(drive_texts(matches)))),
        "threads" => Ok(Some(Request::Threads(load_texts(matches)))),
        "tokens" => Ok(Some(Request::Tokens(token_texts(matches)))),
        "decode" => Ok(Some(Request::Decode(decode_texts(matches)))),
        "draw" => Ok(Some(Request::Draw(drive_texts(matches)))),
        _ => repeated_request(alloc, name, matches),
    }
}

/// What the words of a command line ask for, the first of which names the program.
///
/// # Errors
///
/// The words ask for help, are no command line, or an allocation was refused.
pub fn request_of<'a>(alloc: Global, words: &'a [String]) -> Result<Option<Request<'a>>, Error>
    ensures asks { IfOk result (λ request. option_map wanted_by request
        ≡ asked_by (map string_bytes words.now)) }
    ensures fails { FailsBy (fault_of opalport_line (map string_bytes words.now)) result }
{
    let matches = command(alloc)?.try_get_matches_from(words)?;
    Ok(request_in(alloc, &matches)?)
}
