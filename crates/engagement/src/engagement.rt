// A device engagement.
ghost use Rattle.std.specs.Prelude.{◌≡◌, IfOk, option_map};
ghost use Rattle.cbor_maps.specs.Reading.{once};
ghost use Rattle.cbor_view.specs.Reading.{Gives};
ghost use Rattle.cbor_view.specs.View.{part};
ghost use Rattle.cbor_maps.specs.Labels.{labelled};
ghost use Rattle.engagement.specs.declared.engage_fault.EngageFault.TheVariants.{Doubled};
ghost use Rattle.engagement.specs.Engagement.{engagement, is_edition_1, of_map, version_in};

use crate::EngageFault;
use crate::security::Security;
use cbor_view::{Key, View};
use cose_msgs::CoseKey;
use key_device::Point;

/// The keys of the map: the version, the security and the retrieval methods.
pub(crate) const VERSION: i64 = 0;

pub(crate) const SECURITY: i64 = 1;

pub(crate) const RETRIEVAL_METHODS: i64 = 2;

/// The cipher suite of ISO/IEC 18013-5, 9.1.5.2.
const SUITE: i128 = 1;

/// A device engagement (ISO/IEC 18013-5, 8.2.1.1), borrowed from the bytes that spell it. Its retrieval
/// methods aren't looked at.
#[derive(Clone, Copy)]
pub struct Engagement<'a> {
    raw: &'a [u8],
    key: Point,
}

impl<'a> Engagement<'a> {
    ghost use Rattle.engagement.specs.EngagementView.{point_of, raw_of};

    /// The engagement that the bytes spell.
    #[tactic(auto, unfolding(crate::specs::Engagement::engagement))]
    pub fn read(bytes: &'a [u8]) -> Result<Engagement<'a>, EngageFault>
        ensures exact { Gives point_of result (engagement bytes.now) }
        ensures raw { IfOk result (λ e. raw_of e ≡ bytes.now) }
    {
        let Ok(map) = View::read(bytes) else {
            return Err(EngageFault::Cbor);
        };
        let key = of_map(map)?;
        Ok(Engagement { raw: bytes, key })
    }

    /// The bytes that the engagement was read from.
    pub fn raw(&self) -> &'a [u8]
        ensures { result.now ≡ raw_of self.now }
    {
        self.raw
    }

    /// The device key, EDeviceKey.Pub (9.1.1.4).
    pub fn key(&self) -> &Point
        ensures { result.now ≡ point_of self.now }
    {
        &self.key
    }
}

/// The device key of the map.
fn of_map(map: View<'_>) -> Result<Point, EngageFault>
    ensures { Gives (λ p. p) result (of_map (part map.entry)) }
{
    let version = once(map, VERSION)?;
    let security = once(map, SECURITY)?;
    once(map, RETRIEVAL_METHODS)?;
    let version = version_in(version)?;
    let security = Security::read(security)?;
    if !is_edition_1(version) {
        return Err(EngageFault::Version);
    }
    if security.suite != SUITE {
        return Err(EngageFault::Suite);
    }
    match CoseKey::read(security.key) {
        Ok(key) => Ok(key.point),
        Err(fault) => Err(EngageFault::Key(fault)),
    }
}

/// What is under a key that may be there once.
#[tactic(auto, unfolding(cbor_maps::specs::Labels::labelled))]
fn once(map: View<'_>, label: i64) -> Result<Option<View<'_>>, EngageFault>
    ensures { Gives (option_map part) result (once Doubled (labelled (part map.entry) label)) }
{
    match map.entry(Key::Int(label)) {
        Ok(found) => Ok(found),
        Err(_) => Err(EngageFault::Doubled),
    }
}

/// The version that was found under its key.
fn version_in(found: Option<View<'_>>) -> Result<&str, EngageFault>
    ensures { Gives (λ v. v.now) result (version_in (option_map part found.entry)) }
{
    let Some(version) = found else {
        return Err(EngageFault::Field(0));
    };
    match version.text() {
        Some(text) => Ok(text),
        None => Err(EngageFault::Field(0)),
    }
}

/// Whether it begins with `1.`.
fn is_edition_1(version: &str) -> bool
    ensures { result ≡ is_edition_1 version.now }
{
    version.as_bytes().starts_with(b"1.")
}
