//! What the line of a refusal tells of a fault.
ghost use Rattle.std.specs.Prelude.{◌≡◌, [], ◌∷◌, ◌++◌, Some, codes};
ghost use Rattle.fault_table.specs.Tables.{fault, in_session, at_place, Name};
ghost use Rattle.job_file.specs.ToldFaults.{fault_part, of_field, of_count, told_job_fault, told_names_fault};

use crate::fault::JobFault;
use crate::field::JobField;
use fault_table::Entry;
use party_names::NamesFault;

impl JobFault {
    /// The part of the job that has the fault: the file's own text, or the parties' names.
    pub fn part(&self) -> &'static str
        ensures { result.now ≡ fault_part self.now }
    {
        match self {
            JobFault::Names { .. } => "names",
            _ => "job",
        }
    }

    /// What the line of a refusal tells of the fault.
    pub fn told(&self) -> Entry<'_>
        ensures { result ≡ told_job_fault self.now }
    {
        match self {
            JobFault::NotToml => Entry::new(1, "NotToml"),
            JobFault::Version { found } => Entry::new(2, "Version").with_signed("found", *found),
            JobFault::Missing { session, field } => of_field(3, "Missing", *session, *field),
            JobFault::Unknown { session, name } => return unknown(*session, name.as_str()),
            JobFault::WrongKind { session, field } => of_field(5, "WrongKind", *session, *field),
            JobFault::BadRing { bits } => Entry::new(6, "BadRing").with_signed("bits", *bits),
            JobFault::BadOwner { session, at } => of_owner(7, "BadOwner", *session, *at),
            JobFault::BadReader { session, value, at } => of_session(8, "BadReader", *session)
                .with_number("value", *value as u64)
                .with_number("at", *at),
            JobFault::BadFileName { session } => of_session(10, "BadFileName", *session),
            JobFault::BadLayout { session } => of_session(11, "BadLayout", *session),
            JobFault::SessionCount { count } => of_count(12, "SessionCount", *count),
            JobFault::BadHost { at } => Entry::at_place(13, "BadHost", *at),
            JobFault::BadPort { port } => Entry::new(14, "BadPort").with_signed("port", *port),
            JobFault::BadTolerated { value, at } => Entry::new(15, "BadTolerated")
                .with_number("value", *value as u64)
                .with_number("at", *at),
            JobFault::TooManyTolerated { count } => of_count(16, "TooManyTolerated", *count),
            JobFault::BadProducts { session } => of_session(17, "BadProducts", *session),
            JobFault::BadCarry { session, at } => of_owner(18, "BadCarry", *session, *at),
            JobFault::BadFrames => Entry::new(19, "BadFrames"),
            JobFault::BadViews => Entry::new(20, "BadViews"),
            JobFault::BadOrder { session } => of_session(22, "BadOrder", *session),
            JobFault::Names { fault } => told_names(*fault),
            JobFault::Memory => Entry::new(0, "Memory"),
        }
    }
}

fn unknown(session: Option<u32>, name: &str) -> Entry<'_>
    ensures { result ≡ fault 4 (codes "Unknown") (in_session session ++ (codes "name", Name name.now) ∷ []) }
{
    Entry::in_session(4, "Unknown", session).with_name("name", name.as_bytes())
}

fn of_session(number: u32, name: &'static str, session: u32) -> Entry<'static>
    ensures { result ≡ fault number name.now (in_session (Some session)) }
{
    Entry::in_session(number, name, Some(session))
}

fn of_owner(number: u32, name: &'static str, session: u32, at: u64) -> Entry<'static>
    ensures { result ≡ fault number name.now (in_session (Some session) ++ at_place at) }
{
    of_session(number, name, session).with_number("at", at)
}

fn of_count(number: u32, name: &'static str, count: u64) -> Entry<'static>
    ensures { result ≡ fault number name.now (of_count count) }
{
    Entry::new(number, name).with_number("count", count)
}

fn of_field(
    number: u32,
    name: &'static str,
    session: Option<u32>,
    field: JobField,
) -> Entry<'static>
    ensures { result ≡ fault number name.now (in_session session ++ of_field field) }
{
    Entry::in_session(number, name, session).with_text("field", field.text().as_bytes())
}

fn told_names(fault: NamesFault) -> Entry<'static>
    ensures { result ≡ told_names_fault fault }
{
    match fault {
        NamesFault::BadName { at } => Entry::at_place(1, "BadName", at),
        NamesFault::TwiceNamed { at } => Entry::at_place(2, "TwiceNamed", at),
        NamesFault::PartyCount { count } => of_count(3, "PartyCount", count),
        NamesFault::Memory => Entry::new(0, "Memory"),
    }
}
