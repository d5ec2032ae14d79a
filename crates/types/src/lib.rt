// The Rust's types.rs: readings, requests and decisions.
#![tactic(auto, unfolding(crate::specs::Vec3::alt_m, crate::specs::Vec3::horizontal_dist_home, crate::specs::ActiveSet::set_request, crate::specs::ActiveSet::clear_request, crate::specs::ActiveSet::higher_request, crate::specs::ActiveSet::requested_action))]

ghost use Rattle.std.specs.Prelude.{◌≡◌, ℕ};
ghost use Rattle.types.specs.Vec3.{alt_m, horizontal_dist_home};
ghost use Rattle.types.specs.Numbers.{fix_number, fix_of_number, landed_number, landed_of_number, rank, action_of_rank, index, from_index, reason_of_index, display_priority};
ghost use Rattle.types.specs.ActiveSet.{higher_request, empty_set, set_request, set_if, set_option, clear_request, requested_action, Highest};

pub const MAX_FENCE_VERTS: usize = 16;

pub const HALF_RANGE_MS: u32 = 0x8000_0000;

#[derive(Clone, Copy)]
pub struct Point2 {
    pub n: f32,
    pub e: f32,
}

#[derive(Clone, Copy)]
pub struct Vec3 {
    pub n: f32,
    pub e: f32,
    pub d: f32,
}

impl Vec3 {
    pub fn alt_m(self) -> f32
        ensures { result ≡ alt_m self }
    {
        -self.d
    }

    pub fn horizontal_dist_home(self) -> f32
        ensures { result ≡ horizontal_dist_home self }
    {
        float32::sqrtf(self.n * self.n + self.e * self.e)
    }
}

// A reading with the time at which it was taken.
#[derive(Clone, Copy)]
pub struct Stamped<T> {
    pub t_ms: u32,
    pub value: T,
}

// What was taken at a time.
pub trait Timed {
    ghost stamp: { Self → ℕ };

    fn t_ms(&self) -> u32
        ensures { result ≡ stamp self.now };
}

impl<T> Timed for Stamped<T> {
    ghost stamp = { λ x. x.t_ms };

    fn t_ms(&self) -> u32 {
        self.t_ms
    }
}

impl Timed for PositionSample {
    ghost stamp = { λ x. x.t_ms };

    fn t_ms(&self) -> u32 {
        self.t_ms
    }
}

impl Timed for GpsSample {
    ghost stamp = { λ x. x.t_ms };

    fn t_ms(&self) -> u32 {
        self.t_ms
    }
}

// A heartbeat is its own time.
impl Timed for u32 {
    ghost stamp = { λ x. x };

    fn t_ms(&self) -> u32 {
        *self
    }
}

#[derive(Clone, Copy, PartialEq, Eq)]
pub enum GpsFix {
    None,
    Fix2D,
    Fix3D,
}

#[derive(Clone, Copy, PartialEq, Eq)]
pub enum LandedState {
    Undefined,
    OnGround,
    InAir,
    Takeoff,
    Landing,
}

#[derive(Clone, Copy)]
pub struct PositionSample {
    pub t_ms: u32,
    pub pos: Vec3,
    pub vel: Vec3,
}

#[derive(Clone, Copy)]
pub struct GpsSample {
    pub t_ms: u32,
    pub fix: GpsFix,
    pub sats: Option<u8>,
    pub hdop: Option<f32>,
}

#[derive(Clone, Copy)]
pub struct BatteryInputs {
    pub voltage_v: Option<Stamped<f32>>,
    pub percent: Option<Stamped<f32>>,
    pub remaining_wh: Option<Stamped<f32>>,
}

#[derive(Clone, Copy)]
pub struct Telemetry {
    pub now_ms: u32,
    pub position: Option<PositionSample>,
    pub gps: Option<GpsSample>,
    pub battery: BatteryInputs,
    pub gcs_heartbeat_ms: Option<u32>,
    pub armed: Option<Stamped<bool>>,
    pub landed: Option<Stamped<LandedState>>,
    pub rc_ok: Option<Stamped<bool>>,
    pub ekf_ok: Option<Stamped<bool>>,
}

// In order of rank.
#[derive(Clone, Copy, PartialEq, Eq, PartialOrd, Ord, Default)]
pub enum Action {
    #[default]
    Nominal,
    Warn,
    Hold,
    ReturnToLaunch,
    Land,
}

#[derive(Clone, Copy, PartialEq, Eq, Default)]
pub enum Reason {
    #[default]
    None,
    ClockFault,
    InvalidInput,
    StaleBattery,
    GcsLinkLost,
    RcLost,
    GpsDegraded,
    GpsLost,
    EkfUnhealthy,
    PositionInvalid,
    FenceApproach,
    FenceBreach,
    AltitudeMax,
    AltitudeMin,
    BatteryWarn,
    BatteryLow,
    BatteryCritical,
    EnergyRtlMarginal,
    EnergyRtlInfeasible,
}

pub const N_REASONS: usize = 19;

// A byte that is no case's number.
#[derive(Clone, Copy, PartialEq, Eq)]
pub struct UnknownNumber;

// The byte that a frame has for a case: its place in declared order.
impl From<GpsFix> for u8 {
    ghost from_gives = { λ fix n. n ≡ fix_number fix };

    fn from(fix: GpsFix) -> u8 {
        fix as u8
    }
}

impl TryFrom<u8> for GpsFix {
    type Error = UnknownNumber;

    ghost try_from_gives = { λ n r. r ≡ fix_of_number n };

    fn try_from(n: u8) -> Result<Self, UnknownNumber> {
        match n {
            0 => Ok(GpsFix::None),
            1 => Ok(GpsFix::Fix2D),
            2 => Ok(GpsFix::Fix3D),
            _ => Err(UnknownNumber),
        }
    }
}

impl From<LandedState> for u8 {
    ghost from_gives = { λ landed n. n ≡ landed_number landed };

    fn from(landed: LandedState) -> u8 {
        landed as u8
    }
}

impl TryFrom<u8> for LandedState {
    type Error = UnknownNumber;

    ghost try_from_gives = { λ n r. r ≡ landed_of_number n };

    fn try_from(n: u8) -> Result<Self, UnknownNumber> {
        match n {
            0 => Ok(LandedState::Undefined),
            1 => Ok(LandedState::OnGround),
            2 => Ok(LandedState::InAir),
            3 => Ok(LandedState::Takeoff),
            4 => Ok(LandedState::Landing),
            _ => Err(UnknownNumber),
        }
    }
}

impl Action {
    // The Rust's name. Also the byte that a frame has for it: its place in declared order.
    pub fn rank(self) -> u8
        ensures { result ≡ rank self }
    {
        self as u8
    }
}

impl TryFrom<u8> for Action {
    type Error = UnknownNumber;

    ghost try_from_gives = { λ n r. r ≡ action_of_rank n };

    fn try_from(n: u8) -> Result<Self, UnknownNumber> {
        match n {
            0 => Ok(Action::Nominal),
            1 => Ok(Action::Warn),
            2 => Ok(Action::Hold),
            3 => Ok(Action::ReturnToLaunch),
            4 => Ok(Action::Land),
            _ => Err(UnknownNumber),
        }
    }
}

impl TryFrom<u8> for Reason {
    type Error = UnknownNumber;

    ghost try_from_gives = { λ n r. r ≡ reason_of_index n };

    fn try_from(n: u8) -> Result<Self, UnknownNumber> {
        match n {
            0 => Ok(Reason::None),
            1 => Ok(Reason::ClockFault),
            2 => Ok(Reason::InvalidInput),
            3 => Ok(Reason::StaleBattery),
            4 => Ok(Reason::GcsLinkLost),
            5 => Ok(Reason::RcLost),
            6 => Ok(Reason::GpsDegraded),
            7 => Ok(Reason::GpsLost),
            8 => Ok(Reason::EkfUnhealthy),
            9 => Ok(Reason::PositionInvalid),
            10 => Ok(Reason::FenceApproach),
            11 => Ok(Reason::FenceBreach),
            12 => Ok(Reason::AltitudeMax),
            13 => Ok(Reason::AltitudeMin),
            14 => Ok(Reason::BatteryWarn),
            15 => Ok(Reason::BatteryLow),
            16 => Ok(Reason::BatteryCritical),
            17 => Ok(Reason::EnergyRtlMarginal),
            18 => Ok(Reason::EnergyRtlInfeasible),
            _ => Err(UnknownNumber),
        }
    }
}

impl Reason {
    // The Rust's name, of its slot. Also the byte that a frame has for it: its place in declared order.
    pub fn index(self) -> usize
        ensures { result ≡ index self }
    {
        self as usize
    }

    // The Rust's name: the reason of any slot, none past the last.
    #[tactic(auto, using(crate::proofs::Slots::read_back))]
    pub fn from_index(i: usize) -> Option<Self>
        ensures { result ≡ from_index i }
    {
        match u8::try_from(i) {
            Ok(n) => Reason::try_from(n).ok(),
            Err(_) => None,
        }
    }

    // The Rust's name and table. Among requests of the winning rank the highest of these names the reason.
    pub fn display_priority(self) -> u8
        ensures { result ≡ display_priority self }
    {
        match self {
            Reason::None => 0,
            Reason::ClockFault => 6,
            Reason::InvalidInput => 5,
            Reason::StaleBattery => 9,
            Reason::GcsLinkLost => 10,
            Reason::RcLost => 11,
            Reason::GpsDegraded => 4,
            Reason::GpsLost => 15,
            Reason::EkfUnhealthy => 16,
            Reason::PositionInvalid => 14,
            Reason::FenceApproach => 3,
            Reason::FenceBreach => 13,
            Reason::AltitudeMax => 12,
            Reason::AltitudeMin => 2,
            Reason::BatteryWarn => 1,
            Reason::BatteryLow => 8,
            Reason::BatteryCritical => 18,
            Reason::EnergyRtlMarginal => 7,
            Reason::EnergyRtlInfeasible => 17,
        }
    }
}

#[derive(Clone, Copy, Default)]
pub struct Request {
    pub reason: Reason,
    pub action: Action,
}

#[derive(Clone, Copy)]
pub struct ActiveSet {
    pub reqs: [Option<Request>; N_REASONS],
}

// The higher of the highest so far and a slot's request.
fn higher_request(best: Request, slot: Option<Request>) -> Request
    ensures { result ≡ higher_request best slot }
{
    let Some(q) = slot else {
        return best;
    };
    let old = (best.action, best.reason.display_priority());
    let new = (q.action, q.reason.display_priority());
    if old < new { q } else { best }
}

impl ActiveSet {
    pub fn new() -> Self
        ensures { result ≡ empty_set }
    {
        Self {
            reqs: [None; N_REASONS],
        }
    }

    pub fn set(mut self, reason: Reason, action: Action) -> Self
        ensures { result ≡ set_request self reason action }
    {
        self.reqs[reason.index()] = Some(Request { reason, action });
        self
    }

    pub fn set_if(self, on: bool, reason: Reason, action: Action) -> Self
        ensures { result ≡ set_if self on reason action }
    {
        if on { self.set(reason, action) } else { self }
    }

    pub fn set_option(self, reason: Reason, action: Option<Action>) -> Self
        ensures { result ≡ set_option self reason action }
    {
        match action {
            Some(a) => self.set(reason, a),
            None => self,
        }
    }

    pub fn clear(mut self, reason: Reason) -> Self
        ensures { result ≡ clear_request self reason }
    {
        self.reqs[reason.index()] = None;
        self
    }

    pub fn requested_action(self) -> Request
        ensures value { result ≡ requested_action self.reqs }
        ensures highest { Highest self.reqs result }
    {
        let mut best = Request::default();
        for slot in &self.reqs {
            best = higher_request(best, *slot);
        }
        best
    }
}

#[derive(Clone, Copy)]
pub struct EnergyEstimate {
    pub rtl_wh: f32,
    pub land_wh: f32,
    pub reserve_wh: f32,
    pub remaining_wh: Option<f32>,
    pub margin_wh: Option<f32>,
    pub insufficient_for_landing: bool,
}

#[derive(Clone, Copy)]
pub struct Decision {
    pub action: Action,
    pub reason: Reason,
    pub requested: Action,
    pub active: ActiveSet,
    pub position_valid: bool,
    pub clock_fault: bool,
    pub energy: EnergyEstimate,
    pub fence_dist_m: Option<f32>,
    pub disarm_eligible: bool,
}
