ghost use Rattle.std.specs.Prelude.{◌≡◌, ◌++◌, IfOk, OnOk};
ghost use Rattle.std.specs.String.{string_bytes};
ghost use Rattle.pq_model.specs.Install.{IsLawfulInstall};
ghost use Rattle.pq_summary.specs.Summary.{line, summary_of, summary_text};

use crate::counting::{entries, groups, messages, ports};
use crate::install_length::install_length;
use pq_install::Install;
use std::alloc::{AllocError, Global};
use std::fmt::Write;

/// What is counted of a document beside its topology.
#[derive(Clone, Copy, Debug, PartialEq, Eq)]
pub struct Counts {
    pub parts: u64,
    pub queries: u64,
    /// The instances of the queries.
    pub instances: u64,
    /// The classes of words that the queries tell apart.
    pub classes: u64,
}

/// How large a network's document and its install are.
#[derive(Clone, Copy, Debug, PartialEq, Eq)]
pub struct Summary {
    pub switches: u64,
    pub ports: u64,
    pub links: u64,
    pub parts: u64,
    pub queries: u64,
    pub instances: u64,
    pub classes: u64,
    /// The flow mods that add, of all switches.
    pub entries: u64,
    /// The group mods that add, of all switches.
    pub groups: u64,
    /// The messages to all switches.
    pub messages: u64,
    /// The length of the install's spelling.
    pub bytes: u64,
}

/// Appends a line.
fn write_line(word: &str, number: u64, text: &mut String) -> Result<(), AllocError>
    ensures { OnOk result (string_bytes text.new ≡ string_bytes text.old ++ line word.now number) }
{
    write!(text, "{word} {number}\n")
}

impl Summary {
    /// The summary of a document with these counts, and of its install. The install is not spelled.
    #[tactic(auto, unfolding(crate::specs::Summary::summary_of))]
    pub fn of(counts: Counts, install: &Install) -> Summary
        requires { IsLawfulInstall install.now }
        ensures { result ≡ summary_of counts install.now }
    {
        Summary {
            switches: install.topology.switches().len() as u64,
            ports: ports(install.topology.switches()) as u64,
            links: install.topology.links().len() as u64,
            parts: counts.parts,
            queries: counts.queries,
            instances: counts.instances,
            classes: counts.classes,
            entries: entries(&install.messages) as u64,
            groups: groups(&install.messages) as u64,
            messages: messages(&install.messages) as u64,
            bytes: install_length(install) as u64,
        }
    }

    /// The summary's eleven lines, each a word, a space and a decimal number. It fails only where there is no memory for them.
    #[tactic(auto, unfolding(crate::specs::Summary::summary_text))]
    pub fn text(&self, alloc: Global) -> Result<Vec<u8>, AllocError>
        ensures { IfOk result (λ text. text.items ≡ summary_text self.now) }
    {
        let mut text = String::new(alloc);
        write_line("switches", self.switches, &mut text)?;
        write_line("ports", self.ports, &mut text)?;
        write_line("links", self.links, &mut text)?;
        write_line("parts", self.parts, &mut text)?;
        write_line("queries", self.queries, &mut text)?;
        write_line("instances", self.instances, &mut text)?;
        write_line("classes", self.classes, &mut text)?;
        write_line("entries", self.entries, &mut text)?;
        write_line("groups", self.groups, &mut text)?;
        write_line("messages", self.messages, &mut text)?;
        write_line("bytes", self.bytes, &mut text)?;
        Ok(text.into_bytes())
    }
}
