//! The moment of a snapshot, the modules that are out, and what is free at the feeders.
ghost use Rattle.std.specs.Prelude.{◌≡◌, ◌≤◌, ◌<◌, ◌^◌, IfOk, IfSome, length, map};
ghost use Rattle.serde_json.specs.Data.{array};
ghost use Rattle.serde_json.specs.View.{items_of, view};
ghost use Rattle.tp_machine.specs.Limits.{most_modules};
ghost use Rattle.tp_schedule.specs.PlannerAnswers.{last_tick};
ghost use Rattle.tp_snapshot.specs.Moments.{free_in, is_text, none_out, now_of, out_from, outs_of, stock_from, stock_of};
ghost use Rattle.tp_snapshot.specs.Written.{out_names, stock_data, texts};

use crate::json_lookup::{read_whole, value_at, values_at};
use crate::json_values::name_value;
use serde_json::Value;
use std::alloc::Global;
use tp_base::{Items, Memory, Name, Tick};
use tp_jobs::StockRows;
use tp_machine::{Feeder, Machine, ModId, Names, Outs, machine_law};

/// The last moment, and the most sheets that are free at a feeder.
const LAST_MOMENT: u32 = 1_000_000_000;

const MOST_FREE: u32 = 1_000_256;

/// The moment of a snapshot.
pub(crate) fn read_now(value: &Value) -> Option<Tick>
    ensures moment { result ≡ now_of (view value.now) }
    ensures within { IfSome result (λ now. now ≤ last_tick) }
{
    read_whole(value_at(value, "now")?, LAST_MOMENT)
}

/// Whether the value is this name.
fn is_text(name: &Name, value: &Value) -> bool
    ensures { result ≡ is_text name.now (view value.now) }
{
    match value.as_str() {
        Some(text) => text.as_bytes() == name.as_bytes(),
        None => false,
    }
}

/// The modules that the values name, in the order of the machine's modules.
fn outs_in(modules: &Names, values: &[Value]) -> Option<Outs>
    requires { length modules.now ≤ most_modules }
    ensures { result ≡ out_from 0 modules.now (map view values.now) none_out }
{
    let mut outs = Outs(0);
    let mut taken = 0;
    'modules: for at in 0..modules.len() {
        if taken < values.len() && is_text(&modules.get(at as u16), &values[taken]) {
            outs = outs.put_out(ModId(at as u8));
            taken += 1;
        }
    }
    if taken == values.len() {
        Some(outs)
    } else {
        None
    }
}

/// The modules that are out in a snapshot.
pub(crate) fn read_outs(machine: &Machine, value: &Value) -> Option<Outs>
    ensures { result ≡ outs_of machine.now (view value.now) }
{
    machine_law(machine);
    outs_in(&machine.modules, values_at(value, "out")?)
}

/// What is free at a feeder with this stock.
fn read_free(stock: Option<u32>, value: &Value) -> Option<Option<u32>>
    ensures { result ≡ free_in stock (view value.now) }
{
    match stock {
        None => if value.is_null() { Some(None) } else { None },
        Some(_) => match read_whole(value, MOST_FREE) {
            Some(free) => Some(Some(free)),
            None => None,
        },
    }
}

fn stock_in(
    alloc: Global,
    feeders: &[Feeder],
    values: &[Value],
) -> Result<Option<StockRows>, Memory>
    requires { length feeders.now < 2 ^ 32 }
    ensures { IfOk result (λ stock. stock ≡ stock_from feeders.now (map view values.now)) }
{
    if feeders.len() != values.len() {
        return Ok(None);
    }
    let mut stock = Items::new(alloc);
    'feeders: for at in 0..feeders.len() {
        match read_free(feeders[at].stock, &values[at]) {
            Some(free) => stock.push(free)?,
            None => return Ok(None),
        }
    }
    Ok(Some(stock))
}

/// What is free at the feeders in a snapshot.
pub(crate) fn read_stock(
    alloc: Global,
    machine: &Machine,
    value: &Value,
) -> Result<Option<StockRows>, Memory>
    ensures { IfOk result (λ stock. stock ≡ stock_of machine.now (view value.now)) }
{
    // For the prover: brings length feeders < 2^32.
    let _few = machine.feeders.len();
    match values_at(value, "stock") {
        Some(values) => stock_in(alloc, machine.feeders.as_slice(), values),
        None => Ok(None),
    }
}

/// An array of the names of the modules that are out.
pub(crate) fn outs_value(alloc: Global, modules: &Names, outs: Outs) -> Result<Value, Memory>
    requires { length modules.now ≤ most_modules }
    ensures { IfOk result (λ value. view value ≡ texts (out_names outs 0 modules.now)) }
{
    let mut array = Vec::new(alloc);
    'modules: for at in 0..modules.len() {
        if outs.contains(ModId(at as u8)) {
            array.push(name_value(alloc, &modules.get(at as u16))?)?;
        }
    }
    Ok(Value::from(array))
}

/// An array of what is free at each feeder.
pub(crate) fn stock_value(alloc: Global, stock: &[Option<u32>]) -> Result<Value, Memory>
    ensures { IfOk result (λ value. view value ≡ array (items_of (map stock_data stock.now))) }
{
    let mut array = Vec::new(alloc);
    let mut rest = stock;
    'stock: while let [free, others @ ..] = rest {
        array.push(Value::from(*free))?;
        rest = others;
    }
    Ok(Value::from(array))
}
