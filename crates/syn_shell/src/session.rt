//! The session: the network, and the commands that make, show, compare and write it.

ghost use Rattle.std.specs.Prelude.{◌≡◌, ℕ, ◌≤◌, List, Option, IfOk, IfErr, OnOk, Some};
ghost use Rattle.syn_netlist.specs.Lists.{Netlist};
ghost use Rattle.syn_reader.specs.Reading.{Reads};
ghost use Rattle.syn_text.specs.Printed.{printed};
ghost use Rattle.syn_network.specs.Written as graphs;
ghost use Rattle.syn_build.specs.Building.{IsGraphOf};
ghost use Rattle.syn_gen.specs.Generated.{generated};
ghost use Rattle.syn_report.specs.Seconds.{seconds_text};
ghost use Rattle.syn_shell.specs.Networks.{graph_network, IsSmall, Written};
ghost use Rattle.syn_shell.specs.Lines.{IsLevelsText, IsStatsLine};
ghost use Rattle.syn_command_files.specs.Told.{FileIs, FilesUnchanged};
ghost use Rattle.syn_shell.specs.Outside.{nothing_yet, OthersUnchanged, Took, state};
ghost use Rattle.syn_shell.specs.Comparing.{CompareRefused, Compared};
ghost use Rattle.syn_shell.specs.Reads.{AigerReadRefused, IsLutFile, IsReadAs, IsReadAsAiger, LutsRefused, ReadRefused};
ghost use Rattle.syn_shell.specs.Steps.{AigerWriteRefused, gates_for, GeneratingRefused, IsAigerOf, MakingRefused, PrintRefused, Remakes, SessionStep, TimeRefused, with_luts, WriteRefused};

use crate::comparing::{compare_files, compare_network};
use crate::files::get;
use crate::lines::print_stats;
use crate::luts::with_luts;
use crate::network::HeldNetwork;
use crate::refusal::Refusal;
use crate::reports::{clock_now, hundredths_between, print_levels, print_seconds, put_text};
use crate::{aiger, blif};
use std::alloc::Global;
use std::marker::Model;
use std::thread::Threads;
use std::time::{Clock, Instant};
use syn_build::build;
use syn_command_files::luts_of;
use syn_commit::CommitHook;
use syn_io::{Files, Sink};
use syn_network::Network;
use syn_words::{Command, LutSizes, NetworkFile, Recipe};
use syn_workers::Workers;

/// What is kept from command to command: the network, a graph or a net of LUTs, the LUTs that mapping uses where a command
/// names none, and when the clock was last read. Contracts see the network as it is written: the netlist, with the mark whether
/// it is a net of LUTs. The number of workers and the clock change nothing that they see.
#[derive(Debug, Drop)]
pub struct Session {
    network: Option<HeldNetwork>,
    luts: LutSizes,
    workers: Workers,
    read_at: Option<Instant>,
}

impl Model for Session {
    ghost use Rattle.std.specs.Prelude.{◌≤◌, IfSome, Option};
    ghost use Rattle.syn_shell.specs.Networks.{IsSmall, network_in};
    ghost use Rattle.syn_shell.specs.Outside.{Kept};

    ghost Value = { Kept };

    ghost view = { λ session. record { network = network_in session.network; luts = session.luts } };

    ghost invariant = { λ session. IfSome (network_in session.network) IsSmall };
}

// The graph of the netlist of a seed and a size.
fn generated(alloc: Global, seed: u64, size: u16) -> Result<Network, Refusal>
    ensures generated { IfOk result (λ graph. IsGraphOf (generated seed size) (graphs.network_of graph)) }
    ensures small { IfOk result (λ graph. IsSmall (graph_network (graphs.network_of graph))) }
    ensures refused { IfErr result GeneratingRefused }
{
    syn_gen::generated_is_checked();
    syn_gen::generated_costs();
    syn_gen::generated_outputs();
    let netlist = syn_gen::generate(alloc, seed, size as u32)?;
    let graph = build(alloc, &netlist)?;
    Ok(graph)
}

impl Session {
    /// No network yet; and so many workers, 1 to 16, for each command that names no number of them. The clock is read.
    pub fn new<R: Clock>(rt: &R, workers: Workers) -> Session
        ensures { result ≡ nothing_yet }
    {
        Session {
            network: None,
            luts: LutSizes::usual(),
            workers,
            read_at: clock_now(rt),
        }
    }

    // Makes the graph of a file's netlist the network.
    fn read<F: Files>(&mut self, alloc: Global, name: &str, files: &mut F) -> Result<(), Refusal>
        ensures read { OnOk result ((net : Netlist) × (self.new.network ≡ Some (graph_network net)) × IsReadAs name.now (F.disk files.old) net) }
        ensures stays { IfErr result (λ cause. self.new.network ≡ self.old.network) }
        ensures refused { IfErr result (ReadRefused name.now (F.disk files.old) (F.disk files.new)) }
        ensures luts { self.new.luts ≡ self.old.luts }
        ensures unchanged { FilesUnchanged (F.disk files.old) (F.disk files.new) }
    {
        let graph = blif::read(alloc, name, files)?;
        self.network = Some(HeldNetwork::Graph(graph));
        Ok(())
    }

    // Makes the graph of an AIGER file the network.
    fn read_aiger<F: Files>(
        &mut self,
        alloc: Global,
        properties: bool,
        name: &str,
        files: &mut F,
    ) -> Result<(), Refusal>
        ensures read { OnOk result ((net : Netlist) × (self.new.network ≡ Some (graph_network net)) × IsReadAsAiger properties name.now (F.disk files.old) net) }
        ensures stays { IfErr result (λ cause. self.new.network ≡ self.old.network) }
        ensures refused { IfErr result (AigerReadRefused properties name.now (F.disk files.old) (F.disk files.new)) }
        ensures luts { self.new.luts ≡ self.old.luts }
        ensures unchanged { FilesUnchanged (F.disk files.old) (F.disk files.new) }
    {
        let graph = aiger::read(alloc, properties, name, files)?;
        self.network = Some(HeldNetwork::Graph(graph));
        Ok(())
    }

    // Takes what LUTs mapping uses from a file of LUTs.
    fn read_luts<F: Files>(
        &mut self,
        alloc: Global,
        name: &str,
        files: &mut F,
    ) -> Result<(), Refusal>
        ensures luts { OnOk result (IsLutFile name.now (F.disk files.old) self.new.luts) }
        ensures stays { IfErr result (λ cause. self.new.luts ≡ self.old.luts) }
        ensures refused { IfErr result (LutsRefused name.now (F.disk files.old) (F.disk files.new)) }
        ensures network { self.new.network ≡ self.old.network }
        ensures unchanged { FilesUnchanged (F.disk files.old) (F.disk files.new) }
    {
        let bytes = get(alloc, name, files)?;
        match luts_of(bytes.as_slice()) {
            Ok(luts) => {
                self.luts = luts;
                Ok(())
            }
            Err(fault) => Err(Refusal::ReadLuts(fault)),
        }
    }

    // Makes the graph of a generated netlist the network.
    fn generate(&mut self, alloc: Global, seed: u64, size: u16) -> Result<(), Refusal>
        ensures made { OnOk result ((net : Netlist) × (self.new.network ≡ Some (graph_network net)) × IsGraphOf (generated seed size) net) }
        ensures stays { IfErr result (λ cause. self.new.network ≡ self.old.network) }
        ensures refused { IfErr result GeneratingRefused }
        ensures luts { self.new.luts ≡ self.old.luts }
    {
        let graph = generated(alloc, seed, size)?;
        self.network = Some(HeldNetwork::Graph(graph));
        Ok(())
    }

    // Puts the network's line.
    fn print_stats<O: Sink>(&self, alloc: Global, out: &mut O) -> Result<(), Refusal>
        ensures put { OnOk result ((net : Written) × (line : List ℕ) × (self.now.network ≡ Some net) × IsStatsLine net line × Took line (O.screen out.old) (O.screen out.new)) }
        ensures refused { IfErr result (PrintRefused IsStatsLine self.now.network (O.screen out.old) (O.screen out.new)) }
    {
        match &self.network {
            None => Err(Refusal::NoNetwork),
            Some(network) => print_stats(alloc, network, out),
        }
    }

    // Puts how many observed signals have each level.
    fn print_levels<O: Sink>(&self, alloc: Global, out: &mut O) -> Result<(), Refusal>
        ensures put { OnOk result ((net : Written) × (text : List ℕ) × (self.now.network ≡ Some net) × IsLevelsText net text × Took text (O.screen out.old) (O.screen out.new)) }
        ensures refused { IfErr result (PrintRefused IsLevelsText self.now.network (O.screen out.old) (O.screen out.new)) }
    {
        match &self.network {
            None => Err(Refusal::NoNetwork),
            Some(network) => print_levels(alloc, network, out),
        }
    }

    // Puts the seconds since the clock was read last, and reads it.
    fn print_seconds<R: Clock, O: Sink>(
        &mut self,
        rt: &R,
        alloc: Global,
        out: &mut O,
    ) -> Result<(), Refusal>
        ensures put { OnOk result ((hundredths : Option ℕ) × Took (seconds_text hundredths) (O.screen out.old) (O.screen out.new)) }
        ensures refused { IfErr result (TimeRefused (O.screen out.old) (O.screen out.new)) }
        ensures stays { self.new ≡ self.old }
    {
        let now = clock_now(rt);
        let hundredths = hundredths_between(self.read_at, now);
        self.read_at = now;
        print_seconds(alloc, hundredths, out)
    }

    // Puts how the network, or that of the first file, compares with that of the second.
    fn compare<F: Files, O: Sink>(
        &self,
        alloc: Global,
        conflicts: u32,
        first: &Option<NetworkFile>,
        second: &NetworkFile,
        files: &mut F,
        out: &mut O,
    ) -> Result<(), Refusal>
        ensures put { OnOk result (Compared first.now second.now self.now.network (F.disk files.old) (O.screen out.old) (O.screen out.new)) }
        ensures refused { IfErr result (CompareRefused first.now second.now self.now.network (F.disk files.old) (F.disk files.new) (O.screen out.old) (O.screen out.new)) }
        ensures unchanged { FilesUnchanged (F.disk files.old) (F.disk files.new) }
    {
        match first {
            Some(file) => compare_files(alloc, conflicts, file, second, files, out),
            None => match &self.network {
                None => Err(Refusal::NoNetwork),
                Some(network) => compare_network(alloc, conflicts, network, second, files, out),
            },
        }
    }

    // Writes the network to a file.
    fn write<F: Files>(&self, alloc: Global, name: &str, files: &mut F) -> Result<(), Refusal>
        ensures written { OnOk result ((net : Written) × (self.now.network ≡ Some net) × FileIs name.now (F.disk files.new) (printed net.netlist) × Reads (printed net.netlist) net.netlist
            × OthersUnchanged name.now (F.disk files.old) (F.disk files.new)) }
        ensures refused { IfErr result (WriteRefused self.now.network name.now (F.disk files.old) (F.disk files.new)) }
    {
        match &self.network {
            None => Err(Refusal::NoNetwork),
            Some(network) => blif::write(alloc, network, name, files),
        }
    }

    // Writes the network's graph to an AIGER file.
    fn write_aiger<F: Files>(
        &self,
        alloc: Global,
        ascii: bool,
        bare: bool,
        name: &str,
        files: &mut F,
    ) -> Result<(), Refusal>
        ensures written { OnOk result ((net : Written) × (bytes : List ℕ) × (self.now.network ≡ Some net) × FileIs name.now (F.disk files.new) bytes × IsAigerOf ascii bare net bytes
            × OthersUnchanged name.now (F.disk files.old) (F.disk files.new)) }
        ensures refused { IfErr result (AigerWriteRefused bare self.now.network name.now (F.disk files.old) (F.disk files.new)) }
    {
        match &self.network {
            None => Err(Refusal::NoNetwork),
            Some(network) => aiger::write(alloc, network, ascii, bare, name, files),
        }
    }

    // Makes the network anew by a recipe.
    fn remake<R: Threads + Sync, G: CommitHook>(
        &mut self,
        rt: &R,
        alloc: Global,
        recipe: &Recipe,
        hook: &G,
    ) -> Result<(), Refusal>
        ensures made { OnOk result (Remakes recipe.now self.old.network self.new.network) }
        ensures stays { IfErr result (λ cause. self.new.network ≡ self.old.network) }
        ensures refused { IfErr result (MakingRefused (gates_for recipe.now) self.old.network) }
        ensures luts { self.new.luts ≡ self.old.luts }
    {
        match &mut self.network {
            None => Err(Refusal::NoNetwork),
            Some(network) => network.remake(rt, alloc, recipe, self.workers, hook),
        }
    }

    // The same, with the session's LUTs where the recipe names none.
    fn make<R: Threads + Sync, G: CommitHook>(
        &mut self,
        rt: &R,
        alloc: Global,
        recipe: &Recipe,
        hook: &G,
    ) -> Result<(), Refusal>
        ensures made { OnOk result (Remakes (with_luts self.old.luts recipe.now) self.old.network self.new.network) }
        ensures stays { IfErr result (λ cause. self.new.network ≡ self.old.network) }
        ensures refused { IfErr result (MakingRefused (gates_for (with_luts self.old.luts recipe.now)) self.old.network) }
        ensures luts { self.new.luts ≡ self.old.luts }
    {
        let recipe = with_luts(recipe, &self.luts);
        self.remake(rt, alloc, &recipe, hook)
    }

    /// Does one command. Refused, it leaves the network. The hook is told of each commit of rewriting, refactoring
    /// and resubstitution.
    pub fn step<R: Threads + Sync + Clock, F: Files, O: Sink, G: CommitHook>(
        &mut self,
        rt: &R,
        alloc: Global,
        command: &Command,
        files: &mut F,
        out: &mut O,
        hook: &G,
    ) -> Result<(), Refusal>
        ensures { SessionStep command.now (state self.old (F.disk files.old) (O.screen out.old)) result (state self.new (F.disk files.new) (O.screen out.new)) }
    {
        match command {
            Command::Read(name) => self.read(alloc, name.as_str(), files),
            Command::ReadAiger { properties, name } => {
                self.read_aiger(alloc, *properties, name.as_str(), files)
            }
            Command::ReadLuts(name) => self.read_luts(alloc, name.as_str(), files),
            Command::Generate { seed, size } => self.generate(alloc, *seed, *size),
            Command::Stats => self.print_stats(alloc, out),
            Command::Levels => self.print_levels(alloc, out),
            Command::Time => self.print_seconds(rt, alloc, out),
            Command::Compare {
                conflicts,
                first,
                second,
            } => self.compare(alloc, *conflicts, first, second, files, out),
            Command::Write(name) => self.write(alloc, name.as_str(), files),
            Command::WriteAiger {
                ascii,
                untyped,
                name,
            } => self.write_aiger(alloc, *ascii, *untyped, name.as_str(), files),
            Command::Print(text) => put_text(text.as_slice(), out),
            Command::Source(_) | Command::Quit => Ok(()),
            Command::Make(recipe) => self.make(rt, alloc, recipe, hook),
        }
    }
}
