//! What recipes make of a graph and of a net of LUTs.

ghost use Rattle.std.specs.Prelude.{◌≡◌, ◌≤◌, ℕ, Bool, List, IfOk, IfErr, IfSome, None, Option, Some};
ghost use Rattle.syn_rows.specs.declared.Row.{Row};
ghost use Rattle.syn_network.specs.Written as graphs;
ghost use Rattle.syn_network.specs.WrittenLuts as luts;
ghost use Rattle.syn_build.specs.BuildFaults.{most_gates};
ghost use Rattle.syn_graph.specs.Relations.{SameFunction};
ghost use Rattle.syn_lutnet.specs.Nets.{HasFunctionOf};
ghost use Rattle.syn_balance.specs.Balanced as balanced;
ghost use Rattle.syn_gain.specs.Replacements.{Replacement};
ghost use Rattle.syn_shell.specs.Networks.{gates_in, graph_network, IsSmall, mapped_network, network_of, made_in};
ghost use Rattle.syn_shell.specs.Bodies.{AreFewestLuts, AreLeastLuts, AreMerged, ArePlainLuts, IsLeftBy};
ghost use Rattle.syn_shell.specs.Makes.{IsBalanced, IsLeastMappedTo, IsMappedForArea, IsMappedLoosely, IsMappedTo, IsMerged, IsPassed, IsRemade, luts_in, Makes, MakesOfGraph, most_inputs, window_in};
ghost use Rattle.syn_settled.specs.Fewest.{AreFewLutsOf};
ghost use Rattle.syn_words.specs.declared.inputs.LutSizes.{LutSizes};
ghost use Rattle.syn_words.specs.declared.recipes.Recipe.TheVariants as recipes;
ghost use Rattle.syn_shell.specs.Steps.{gates_for, MakingRefused};

use crate::network::HeldNetwork;
use crate::refusal::Refusal;
use crate::resubstituting::resubstituted;
use std::alloc::{AllocError, Global};
use std::thread::Threads;
use syn_balance::balance;
use syn_build::{BuildFault, build_luts};
use syn_commit::CommitHook;
use syn_fraig::{Limits, fraig};
use syn_graph::Graph;
use syn_lutnet::LutNet;
use syn_map::map;
use syn_network::{LutNetwork, Network};
use syn_pairs::share_pairs;
use syn_pool::PassSettings;
use syn_refactor::refactor;
use syn_resub::resub;
use syn_rewrite::rewrite;
use syn_seq::sweep;
use syn_settled::{few_luts, fewest_luts, least_luts};
use syn_sresub::sresub;
use syn_words::{LutInputs, LutSizes, PassOptions, Recipe, ReplaceLimits, SearchLimits};
use syn_workers::Workers;

// How a pass is to go: as the options say, with so many workers where these name none.
fn settings_of(options: &PassOptions, workers: Workers) -> PassSettings
    ensures levels { result.levels ≡ options.now.levels }
{
    PassSettings {
        workers: options.workers.unwrap_or(workers),
        zero_gain: options.zero,
        levels: options.levels,
    }
}

// How far a search for nodes of one value goes, as the command says.
fn limits_of(limits: &SearchLimits) -> Limits
    ensures levels { result.levels ≡ limits.now.levels }
{
    Limits {
        conflicts: limits.conflicts,
        levels: limits.levels,
    }
}

// How far resubstitution by refutation goes, as the command says.
fn reach_of(limits: &ReplaceLimits) -> syn_sresub::Limits
    ensures levels { result.levels ≡ limits.now.levels }
{
    syn_sresub::Limits {
        gates: limits.gates,
        conflicts: limits.conflicts,
        levels: limits.levels,
    }
}

// What hashing makes of a graph: it is hashed already, and stays.
fn hashed(network: &Network)
    ensures { IsRemade (graph_network (graphs.network_of network.now)) (graph_network (graphs.network_of network.now)) }
{
    syn_network::network_of_graph();
    syn_network::same_function_keeps_meaning();
}

// Puts what was made of a graph under its names; it stays where nothing was made.
fn remade(network: &mut Network, new: Option<Graph>)
    requires { IfSome new (SameFunction network.old.body) }
    ensures balanced { IfSome new (λ body. balanced.IsBalanced network.old.body body → IsBalanced (graph_network (graphs.network_of network.old)) (graph_network (graphs.network_of network.new))) }
    ensures merged { (levels : Bool) → IfSome new (λ body. AreMerged levels network.old.body body → IsMerged levels (graph_network (graphs.network_of network.old)) (graph_network (graphs.network_of network.new))) }
    ensures passed { (proposals : List Row → ℕ → List Replacement) (levels : Bool) → IsLeftBy proposals levels network.old.body new → IsPassed levels proposals (graph_network (graphs.network_of network.old)) (graph_network (graphs.network_of network.new)) }
{
    syn_network::network_of_graph();
    syn_network::same_function_keeps_meaning();
    match new {
        None => {}
        Some(body) => network.put(body),
    }
}

// Puts another network in place of one.
fn put(network: &mut Network, new: Network)
    ensures { network.new ≡ new }
{
    *network = new;
}

// LUTs of a graph under a copy of its names.
fn mapped(alloc: Global, network: &Network, net: LutNet) -> Result<LutNetwork, AllocError>
    requires { HasFunctionOf network.now.body net }
    ensures plain { (k : ℕ) → ArePlainLuts k network.now.body net → IfOk result (λ made. IsMappedTo k (graph_network (graphs.network_of network.now)) (mapped_network (luts.network_of made))) }
    ensures few { (sizes : LutSizes) → AreFewLutsOf sizes.most sizes.areas network.now.body net → IfOk result (λ made. IsMappedForArea sizes (graph_network (graphs.network_of network.now)) (mapped_network (luts.network_of made))) }
    ensures fewest { (sizes : LutSizes) (slack : Option ℕ) → AreFewestLuts sizes slack network.now.body net → IfOk result (λ made. IsMappedLoosely sizes slack (graph_network (graphs.network_of network.now)) (mapped_network (luts.network_of made))) }
    ensures least { (k : ℕ) → AreLeastLuts k network.now.body net → IfOk result (λ made. IsLeastMappedTo k (graph_network (graphs.network_of network.now)) (mapped_network (luts.network_of made))) }
{
    syn_network::network_of_graph();
    syn_network::network_of_luts();
    syn_network::mapped_keeps_meaning();
    network.mapped_copy(alloc, net)
}

// The most inputs of a LUT by what is named: six where nothing is.
fn number_in(inputs: &Option<LutInputs>) -> u8
    ensures number { result ≡ most_inputs inputs.now }
    ensures many { 2 ≤ result }
    ensures few { result ≤ 8 }
{
    match inputs {
        None => LutInputs::usual().number(),
        Some(inputs) => inputs.number(),
    }
}

// The LUTs that are named: of six inputs at most, which all cost the same, where none are.
fn luts_in(sizes: &Option<LutSizes>) -> LutSizes
    ensures { result ≡ luts_in sizes.now }
{
    match sizes {
        None => LutSizes::usual(),
        Some(sizes) => *sizes,
    }
}

// Few such LUTs under a copy of a graph's names.
fn mapped_for_area<R: Threads + Sync>(
    rt: &R,
    alloc: Global,
    network: &Network,
    sizes: &LutSizes,
    workers: Workers,
) -> Result<LutNetwork, AllocError>
    ensures { IfOk result (λ made. IsMappedForArea sizes.now (graph_network (graphs.network_of network.now)) (mapped_network (luts.network_of made))) }
{
    let number = sizes.most.number();
    let areas = sizes.areas.as_slice();
    let few = few_luts(rt, alloc, &network.body, number, areas, workers)?;
    mapped(alloc, network, few)
}

// Such LUTs, likewise: few of them where that is asked, else those of the chosen cuts.
fn mapped_by<R: Threads + Sync>(
    rt: &R,
    alloc: Global,
    network: &Network,
    area: &bool,
    sizes: &Option<LutSizes>,
    workers: Workers,
) -> Result<LutNetwork, AllocError>
    ensures { IfOk result (λ made. MakesOfGraph (recipes.Map area.now sizes.now) (graph_network (graphs.network_of network.now)) (mapped_network (luts.network_of made))) }
{
    let sizes = luts_in(sizes);
    if *area {
        mapped_for_area(rt, alloc, network, &sizes, workers)
    } else {
        let number = sizes.most.number();
        let plain = map(rt, alloc, &network.body, number, workers)?;
        mapped(alloc, network, plain)
    }
}

// Few such LUTs however deep they lie, likewise; or at most so many levels deeper, where a number is given.
fn mapped_loosely<R: Threads + Sync>(
    rt: &R,
    alloc: Global,
    network: &Network,
    slack: &Option<u32>,
    sizes: &Option<LutSizes>,
    workers: Workers,
) -> Result<LutNetwork, AllocError>
    ensures { IfOk result (λ made. MakesOfGraph (recipes.MapLoosely slack.now sizes.now) (graph_network (graphs.network_of network.now)) (mapped_network (luts.network_of made))) }
{
    let sizes = luts_in(sizes);
    let number = sizes.most.number();
    let areas = sizes.areas.as_slice();
    let fewest = fewest_luts(rt, alloc, &network.body, number, areas, *slack, workers)?;
    mapped(alloc, network, fewest)
}

// Few such LUTs, resubstituted over windows of so many LUTs at most.
fn mapped_and_resubstituted<R: Threads + Sync>(
    rt: &R,
    alloc: Global,
    network: &Network,
    window: u32,
    sizes: &Option<LutSizes>,
    workers: Workers,
) -> Result<LutNetwork, AllocError>
    ensures { IfOk result (λ made. MakesOfGraph (recipes.ResubstituteLuts window sizes.now) (graph_network (graphs.network_of network.now)) (mapped_network (luts.network_of made))) }
{
    syn_netlist::same_is_transitive();
    let sizes = luts_in(sizes);
    let few = mapped_for_area(rt, alloc, network, &sizes, workers)?;
    resubstituted(alloc, &few, window)
}

/// Makes a graph anew by a recipe, under its names; or gives the LUTs that the recipe makes of it, under these names too. So
/// many workers do it where the recipe names none. Refused, for want of memory alone, the graph stays.
pub(crate) fn remake_graph<R: Threads + Sync, G: CommitHook>(
    rt: &R,
    alloc: Global,
    recipe: &Recipe,
    network: &mut Network,
    workers: Workers,
    hook: &G,
) -> Result<Option<LutNetwork>, AllocError>
    ensures made { IfOk result (λ made. MakesOfGraph recipe.now (graph_network (graphs.network_of network.old)) (made_in network.new made)) }
    ensures refused { IfErr result (λ error. network.new ≡ network.old) }
{
    match recipe {
        Recipe::Strash => {
            hashed(network);
            Ok(None)
        }
        Recipe::Balance => {
            let new = balance(alloc, &network.body)?;
            remade(network, Some(new));
            Ok(None)
        }
        Recipe::BalanceShared => {
            let new = share_pairs(alloc, &network.body)?;
            remade(network, Some(new));
            Ok(None)
        }
        Recipe::Rewrite(options) => {
            let settings = settings_of(options, workers);
            let new = rewrite(rt, alloc, &network.body, settings, hook)?;
            remade(network, new);
            Ok(None)
        }
        Recipe::Refactor(options) => {
            let settings = settings_of(options, workers);
            let new = refactor(rt, alloc, &network.body, settings, hook)?;
            remade(network, new);
            Ok(None)
        }
        Recipe::Resubstitute(options) => {
            let settings = settings_of(options, workers);
            let new = resub(rt, alloc, &network.body, settings, hook)?;
            remade(network, new);
            Ok(None)
        }
        Recipe::Merge(limits) => {
            let new = fraig(alloc, &network.body, &limits_of(limits))?;
            remade(network, Some(new));
            Ok(None)
        }
        Recipe::Replace(limits) => {
            let new = sresub(alloc, &network.body, &reach_of(limits))?;
            remade(network, Some(new));
            Ok(None)
        }
        Recipe::Map { area, luts } => {
            let made = mapped_by(rt, alloc, network, area, luts, workers)?;
            Ok(Some(made))
        }
        Recipe::MapLoosely { slack, luts } => {
            let made = mapped_loosely(rt, alloc, network, slack, luts, workers)?;
            Ok(Some(made))
        }
        Recipe::ResubstituteLuts { window, luts } => {
            let made = mapped_and_resubstituted(rt, alloc, network, *window, luts, workers)?;
            Ok(Some(made))
        }
        Recipe::MapByFlow(inputs) => {
            let net = least_luts(alloc, &network.body, number_in(inputs))?;
            Ok(Some(mapped(alloc, network, net)?))
        }
        Recipe::Sweep => {
            let new = sweep(alloc, network)?;
            put(network, new);
            Ok(None)
        }
    }
}

/// The graph of a net of LUTs.
pub(crate) fn graph_of(alloc: Global, net: &LutNetwork) -> Result<Network, Refusal>
    requires { IsSmall (mapped_network (luts.network_of net.now)) }
    ensures graph { IfOk result (λ graph. IsRemade (mapped_network (luts.network_of net.now)) (graph_network (graphs.network_of graph))) }
    ensures small { IfOk result (λ graph. IsSmall (graph_network (graphs.network_of graph))) }
    ensures gates { IfOk result (λ graph. gates_in (mapped_network (luts.network_of net.now)) ≤ most_gates) }
    ensures refused { IfErr result (MakingRefused gates_in (Some (mapped_network (luts.network_of net.now)))) }
{
    syn_network::network_of_luts();
    match build_luts(alloc, net) {
        Ok(graph) => Ok(graph),
        Err(BuildFault::TooManyGates(gates)) => Err(Refusal::TooManyGates(gates)),
        Err(BuildFault::NoMemory) => Err(Refusal::NoMemory),
    }
}

// What a recipe for graphs makes of a net of LUTs: what it makes of its graph.
fn hashed_and_remade<R: Threads + Sync, G: CommitHook>(
    rt: &R,
    alloc: Global,
    recipe: &Recipe,
    net: &LutNetwork,
    workers: Workers,
    hook: &G,
) -> Result<HeldNetwork, Refusal>
    requires { IsSmall (mapped_network (luts.network_of net.now)) }
    ensures made { window_in recipe.now ≡ None → IfOk result (λ new. Makes recipe.now (mapped_network (luts.network_of net.now)) (network_of new)) }
    ensures gates { IfOk result (λ new. gates_in (mapped_network (luts.network_of net.now)) ≤ most_gates) }
    ensures refused { IfErr result (MakingRefused gates_in (Some (mapped_network (luts.network_of net.now)))) }
{
    syn_netlist::same_is_transitive();
    let mut graph = graph_of(alloc, net)?;
    match remake_graph(rt, alloc, recipe, &mut graph, workers, hook) {
        Ok(None) => Ok(HeldNetwork::Graph(graph)),
        Ok(Some(luts)) => {
            drop(graph);
            Ok(HeldNetwork::Luts(luts))
        }
        Err(_) => {
            drop(graph);
            Err(Refusal::NoMemory)
        }
    }
}

// The most LUTs of a window, where a recipe resubstitutes LUTs.
fn window_in(recipe: &Recipe) -> Option<u32>
    ensures { result ≡ window_in recipe.now }
{
    match recipe {
        Recipe::ResubstituteLuts { window, .. } => Some(*window),
        _ => None,
    }
}

/// What a recipe makes of a net of LUTs: what it makes of its graph, but for resubstitution, which works on the LUTs.
pub(crate) fn remade_luts<R: Threads + Sync, G: CommitHook>(
    rt: &R,
    alloc: Global,
    recipe: &Recipe,
    net: &LutNetwork,
    workers: Workers,
    hook: &G,
) -> Result<HeldNetwork, Refusal>
    requires small { IsSmall (mapped_network (luts.network_of net.now)) }
    ensures made { IfOk result (λ new. Makes recipe.now (mapped_network (luts.network_of net.now)) (network_of new)) }
    ensures gates { IfOk result (λ new. gates_for recipe.now (mapped_network (luts.network_of net.now)) ≤ most_gates) }
    ensures refused { IfErr result (MakingRefused (gates_for recipe.now) (Some (mapped_network (luts.network_of net.now)))) }
{
    match window_in(recipe) {
        None => hashed_and_remade(rt, alloc, recipe, net, workers, hook),
        Some(window) => {
            let made = resubstituted(alloc, net, window)?;
            Ok(HeldNetwork::Luts(made))
        }
    }
}
