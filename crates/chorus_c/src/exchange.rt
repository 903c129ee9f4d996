// What C and the library tell each other.

/// What may be asked for, each by its place here, counted from 0.
#[derive(Clone, Copy, Debug, PartialEq, Eq)]
pub enum Call {
    /// Make an actor: gives `actor`.
    Actor,
    /// End `actor`.
    Exit,
    /// Make a temporary cache of `pages` zero pages: gives `cache`.
    Temp,
    /// Take `cache` away.
    Destroy,
    /// Copy `pages` pages of `cache`, from `page` on, to `to_cache`, to `to_page` on.
    Copy,
    /// Move them.
    Move,
    /// Map `pages` pages of `cache`, from `page` on, into `actor` at `address`, for writing too
    /// where `write` isn't 0: gives `region`.
    Map,
    /// Cut `region` in two: it keeps `pages` pages, and gives the new `region` with the others.
    Split,
    /// Let `region` be written or not, as `write` says.
    Protect,
    /// Hold the pages of `region` in page frames.
    Lock,
    /// Let them go again.
    Unlock,
    /// Take `region` away.
    Unmap,
    /// Which region of `actor` holds `address`: gives `region`.
    Find,
    /// What `region` is: gives `actor`, `cache`, `page`, `pages`, `address`, `write`, `locked`.
    Status,
    /// Load `length` bytes at `address` of `actor`: gives the first ones of `bytes`.
    Load,
    /// Store the first `length` of `bytes` at `address` of `actor`.
    Store,
    /// Evict `pages` page frames, or as many as can be.
    PageOut,
    /// How much there is: gives `live`, `working` and `copies`.
    Stat,
}

/// The calls, each at its number.
pub const CALLS: [Call; 18] = [
    Call::Actor,
    Call::Exit,
    Call::Temp,
    Call::Destroy,
    Call::Copy,
    Call::Move,
    Call::Map,
    Call::Split,
    Call::Protect,
    Call::Lock,
    Call::Unlock,
    Call::Unmap,
    Call::Find,
    Call::Status,
    Call::Load,
    Call::Store,
    Call::PageOut,
    Call::Stat,
];

/// The number of the call that closes a machine.
pub const CLOSE: u32 = 18;

/// A request, and its reply: a call reads the fields that it takes, and writes those that it gives.
#[repr(C)]
#[derive(Drop)]
pub struct Exchange {
    pub address: u64,
    pub copies: u64,
    pub call: u32,
    pub actor: u32,
    pub cache: u32,
    pub page: u32,
    pub pages: u32,
    pub to_cache: u32,
    pub to_page: u32,
    pub region: u32,
    pub write: u32,
    pub locked: u32,
    pub length: u32,
    pub live: u32,
    pub working: u32,
    pub bytes: [u8; 64],
}
