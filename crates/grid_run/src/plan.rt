//! Which caches the rows of a grid have in common.

ghost use Rattle.std.specs.Prelude.{◌≡◌, IfOk, IfSome, OnOk, map};
ghost use Rattle.std.specs.List.{All};
ghost use Rattle.cache_core.specs.Standing.{rules_from};
ghost use Rattle.stage_core.specs.Config.{hierarchy_of};
ghost use Rattle.stage_core.specs.Events.{IsBounded};
ghost use Rattle.grid_run.specs.Backs.{task_of_shelf};
ghost use Rattle.grid_run.specs.Grids.{IsBoundedRow, IsBoundedSetup};
ghost use Rattle.grid_run.specs.Lanes.{task_of_plan};
ghost use Rattle.grid_run.specs.Plans.{AreBacksFor, IsLaneFor, IsSeatBehind, KeepsBehind};
ghost use Rattle.grid_run.specs.Plans.{KeepsPlaced, KeepsPlaces, KeepsPlacesIn};
ghost use Rattle.grid_run.specs.Rows.{HavePlaces, IsPlaceIn, IsSound, RowHasPlace};

use crate::grid::{Row, Setup};
use crate::lists::add_to;
use crate::seat::{BothSeats, Seat, seat_for};
use crate::sharing::{Sharing, share_rows};
use crate::shelf::Shelf;
use cache_core::{Geometry, NoMemory, Policy};
use stage_core::{Config, Selection};
use std::alloc::Global;

/// Second-level caches behind the same two first-level caches.
#[derive(Drop)]
pub(crate) struct BackShelf {
    pub i: Seat,
    pub d: Seat,
    pub shelf: Shelf,
}

#[tactic(auto, unfolding(crate::specs::Backs::task_of_shelf))]
impl BackShelf {
    ghost use Rattle.std.specs.Prelude.{◌≡◌, true};
    ghost use Rattle.grid_run.specs.Backs.{seats_of_task, task_of_shelf};
    ghost use Rattle.grid_run.specs.Alike.{IsAlike};

    /// The seats in front of the caches.
    pub fn seats(&self) -> BothSeats
        ensures { result ≡ seats_of_task (task_of_shelf self.now) }
    {
        BothSeats {
            i: self.i,
            d: self.d,
        }
    }

    /// Whether another shelf is for the same caches, behind caches of the same families.
    pub fn is_like(&self, other: &BackShelf) -> bool
        ensures { result ≡ true → IsAlike self.now other.now }
    {
        self.i.family == other.i.family
            && self.d.family == other.d.family
            && self.shelf.is_like(&other.shelf)
    }
}

/// The caches of all rows of one selection and one portion of the grid.
#[derive(Drop)]
pub(crate) struct LanePlan {
    pub selection: Selection,
    /// Which portion.
    pub portion: usize,
    pub i: Vec<Shelf>,
    pub d: Vec<Shelf>,
    pub backs: Vec<BackShelf>,
}

/// Where the caches of a row are: in which lane, and at which of its seats.
#[derive(Clone, Copy, Debug)]
pub(crate) struct Place {
    pub lane: usize,
    pub i: Seat,
    pub d: Seat,
    pub u: Seat,
}

/// The caches of a grid, and the place of each row that was not refused.
#[derive(Drop)]
pub(crate) struct Plan {
    pub lanes: Vec<LanePlan>,
    pub places: Vec<Option<Place>>,
}

/// The index of the second levels behind these seats, of this block size and policy.
fn find_back(
    backs: &Vec<BackShelf>,
    i: Seat,
    d: Seat,
    geometry: Geometry,
    policy: Policy,
) -> Option<usize>
    ensures { IfSome result (AreBacksFor i d geometry policy backs.now.items) }
{
    for (index, back) in backs.iter().enumerate() {
        if back.i == i && back.d == d && back.shelf.suits(geometry, policy) {
            return Some(index);
        }
    }
    None
}

/// The index of the second levels behind these seats, of this block size and policy. Where there
/// are none, an empty shelf joins the others.
fn back_for(
    alloc: Global,
    backs: &mut Vec<BackShelf>,
    i: Seat,
    d: Seat,
    geometry: Geometry,
    policy: Policy,
) -> Result<usize, NoMemory>
    ensures back { IfOk result (AreBacksFor i d geometry policy backs.new.items) }
    ensures keeps { OnOk result (KeepsBehind (map task_of_shelf backs.old.items)
        (map task_of_shelf backs.new.items)) }
    ensures placed { OnOk result (KeepsPlaced i d (map task_of_shelf backs.old.items)
        (map task_of_shelf backs.new.items)) }
{
    if let Some(index) = find_back(backs, i, d, geometry, policy) {
        return Ok(index);
    }
    let shelf = Shelf::new(alloc, geometry, policy);
    add_to(backs, BackShelf { i, d, shelf })
}

/// The seat of a second-level cache behind these seats. Where there is none yet, it joins the
/// others of its block size and policy there.
fn seat_behind(
    alloc: Global,
    backs: &mut Vec<BackShelf>,
    i: Seat,
    d: Seat,
    geometry: Geometry,
    policy: Policy,
) -> Result<Seat, NoMemory>
    ensures seat { IfOk result (IsSeatBehind i d (rules_from geometry policy)
        (map task_of_shelf backs.new.items)) }
    ensures keeps { OnOk result (KeepsBehind (map task_of_shelf backs.old.items)
        (map task_of_shelf backs.new.items)) }
    ensures placed { OnOk result (KeepsPlaced i d (map task_of_shelf backs.old.items)
        (map task_of_shelf backs.new.items)) }
{
    let family = back_for(alloc, backs, i, d, geometry, policy)?;
    let cell = backs[family].shelf.cell_for(geometry)?;
    Ok(Seat { family, cell })
}

/// The index of the lane of a selection and a portion, if there is one.
fn find_lane(lanes: &Vec<LanePlan>, selection: Selection, portion: usize) -> Option<usize>
    ensures { IfSome result (IsLaneFor selection lanes.now.items) }
{
    for (index, lane) in lanes.iter().enumerate() {
        if lane.portion == portion && lane.selection == selection {
            return Some(index);
        }
    }
    None
}

/// A lane without caches.
fn empty_lane(alloc: Global, selection: Selection, portion: usize) -> LanePlan
    requires { IsBounded selection }
    ensures selection { result.selection ≡ selection }
    ensures sound { IsSound result }
{
    LanePlan {
        selection,
        portion,
        i: Vec::new(alloc),
        d: Vec::new(alloc),
        backs: Vec::new(alloc),
    }
}

/// The index of the lane of a selection and a portion. Where there is none, it joins the others.
fn lane_for(
    alloc: Global,
    lanes: &mut Vec<LanePlan>,
    selection: Selection,
    portion: usize,
) -> Result<usize, NoMemory>
    requires { IsBounded selection }
    ensures lane { IfOk result (IsLaneFor selection lanes.new.items) }
    ensures keeps { OnOk result
        (KeepsPlaces (map task_of_plan lanes.old.items) (map task_of_plan lanes.new.items)) }
    ensures sound { OnOk result (All IsSound lanes.old.items → All IsSound lanes.new.items) }
{
    if let Some(index) = find_lane(lanes, selection, portion) {
        return Ok(index);
    }
    add_to(lanes, empty_lane(alloc, selection, portion))
}

#[tactic(auto, unfolding(crate::specs::Lanes::task_of_plan))]
impl LanePlan {
    /// The place of a configuration in this lane, which has this index.
    fn place_for(&mut self, alloc: Global, config: &Config, lane: usize) -> Result<Place, NoMemory>
        ensures lane { IfOk result (λ place. place.lane ≡ lane) }
        ensures place { IfOk result (IsPlaceIn (task_of_plan self.new) (hierarchy_of config.now)
            self.old.selection) }
        ensures keeps { OnOk result
            (KeepsPlacesIn (task_of_plan self.old) (task_of_plan self.new)) }
        ensures sound { OnOk result (IsSound self.old → IsSound self.new) }
    {
        let (i_geometry, i_policy) = config.i();
        let (d_geometry, d_policy) = config.d();
        let (u_geometry, u_policy) = config.u();
        let i = seat_for(alloc, &mut self.i, i_geometry, i_policy)?;
        let d = seat_for(alloc, &mut self.d, d_geometry, d_policy)?;
        let u = seat_behind(alloc, &mut self.backs, i, d, u_geometry, u_policy)?;
        Ok(Place { lane, i, d, u })
    }
}

/// The place of a row of this portion, if it was not refused.
fn place_for(
    alloc: Global,
    lanes: &mut Vec<LanePlan>,
    setup: &Setup,
    portion: usize,
) -> Result<Option<Place>, NoMemory>
    requires { IsBoundedSetup setup.now }
    ensures place { IfOk result (RowHasPlace (map task_of_plan lanes.new.items) setup.now) }
    ensures keeps { OnOk result
        (KeepsPlaces (map task_of_plan lanes.old.items) (map task_of_plan lanes.new.items)) }
    ensures sound { OnOk result (All IsSound lanes.old.items → All IsSound lanes.new.items) }
{
    let Setup::Simulated(config, selection) = setup else {
        return Ok(None);
    };
    let lane = lane_for(alloc, lanes, *selection, portion)?;
    let place = lanes[lane].place_for(alloc, config, lane)?;
    Ok(Some(place))
}

/// Plans the caches of the row of this index, if it was not refused.
fn plan_row(
    alloc: Global,
    lanes: &mut Vec<LanePlan>,
    rows: &[Row],
    sharing: &Sharing,
    row: usize,
) -> Result<(), NoMemory>
    requires { All IsBoundedRow rows.now }
    ensures { OnOk result (All IsSound lanes.old.items → All IsSound lanes.new.items) }
{
    if row >= rows.len() || row >= sharing.portions.len() {
        return Ok(());
    }
    place_for(alloc, lanes, &rows[row].setup, sharing.portions[row])?;
    Ok(())
}

/// Plans the caches of the rows in the order of their sharing. So caches that share rows of blocks
/// stand beside one another in their lanes.
fn plan_in_order(
    alloc: Global,
    lanes: &mut Vec<LanePlan>,
    rows: &[Row],
    sharing: &Sharing,
) -> Result<(), NoMemory>
    requires { All IsBoundedRow rows.now }
    ensures { OnOk result (All IsSound lanes.old.items → All IsSound lanes.new.items) }
{
    for row in &sharing.order {
        plan_row(alloc, lanes, rows, sharing, *row)?;
    }
    Ok(())
}

/// The plan for the rows of a grid, which are divided into so many portions.
pub(crate) fn plan_for(alloc: Global, rows: &[Row], portions: usize) -> Result<Plan, NoMemory>
    requires { All IsBoundedRow rows.now }
    ensures places { IfOk result (λ plan.
        HavePlaces (map task_of_plan plan.lanes.items) rows.now plan.places.items) }
    ensures sound { IfOk result (λ plan. All IsSound plan.lanes.items) }
{
    let mut lanes = Vec::new(alloc);
    let mut places = Vec::new(alloc);
    let sharing = share_rows(alloc, rows, portions)?;
    plan_in_order(alloc, &mut lanes, rows, &sharing)?;
    for (index, row) in rows.iter().enumerate() {
        let place = place_for(alloc, &mut lanes, &row.setup, sharing.portions[index])?;
        add_to(&mut places, place)?;
    }
    Ok(Plan { lanes, places })
}
