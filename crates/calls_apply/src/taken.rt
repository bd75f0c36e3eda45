// A command that is decided now: an accepted one changes its tables, and every outcome is remembered.
ghost use Rattle.std.specs.Prelude.{◌≡◌, cond, []};
ghost use Rattle.spec.specs.Map.Apply.{sets_version};
ghost use Rattle.map_tables.specs.View.{view_command};
ghost use Rattle.image_map.specs.Image.{map_at};
ghost use Rattle.map_apply.specs.Decided.{Decided};
ghost use Rattle.calls_decide.specs.Decides.{Fresh};
ghost use Rattle.calls_apply.specs.Settles.{Accepted, Settles, Taken};

use crate::changed::change_shard;
use crate::nodes::{mark_dead, register};
use crate::tell::{takes_effect, tell};
use image_map_check::layout::VERSION;
use image_map_create::create_collection;
use image_map_drop::drop_collection;
use map_tables::{Command, Request, Verdict};

// Each command in its own tables; Bench has none.
fn take_effect(map: &mut [u8], r: Request)
    requires { Fresh map.old r × Accepted map.old r }
    ensures { Taken map.old map.new r }
{
    let command = r.command;
    match command {
        Command::Create(spec) => create_collection(map, r.key.collection, spec, r.placement),
        Command::Drop => drop_collection(map, r.key.collection),
        Command::Register(node, incarnation) => register(map, r, node, incarnation),
        Command::MarkNodeDead(node, incarnation) => mark_dead(map, r, node, incarnation),
        Command::OfShard(change, epoch) => change_shard(map, r, change, epoch),
        Command::Bench => {}
    }
}

// Every applied command but Bench sets the version to its index.
fn next_version(r: Request, version: u64) -> u64
    ensures { result ≡ cond (sets_version (view_command r [])) r.index version }
{
    let command = r.command;
    let index = r.index;
    match command {
        Command::Create(_) => index,
        Command::Drop => index,
        Command::Register(_, _) => index,
        Command::MarkNodeDead(_, _) => index,
        Command::OfShard(_, _) => index,
        Command::Bench => version,
    }
}

// A command decided so.
pub fn taken(map: &mut [u8], r: Request, verdict: Verdict) -> u32
    requires { Fresh map.old r × Decided (map_at map.old) r verdict }
    ensures { Settles map.old map.new r result }
{
    let old = num::get8(map, VERSION);
    if !takes_effect(verdict) {
        return tell(map, r.client, r.seq, verdict, old);
    }
    let version = next_version(r, old);
    take_effect(map, r);
    tell(map, r.client, r.seq, verdict, version)
}
