//! The names of devices: those of logical volumes, and those of the layers of origins and stores.
//!
//! All names are checked before any device is made, so that the first volume in the text without a valid name is
//! refused, no matter which lines refer to it.

ghost use Rattle.lvm_volume.specs.Prelude.{[], None, Some, IfOk, result_err, flat_map, zip, first_of, Returns, built, fault_of, IsNamed, device_name, device_parts, layer_text, unnamed_layer, unnamed_volume};
ghost use Rattle.std.specs.Prelude.{◌≡◌, ◌∷◌};

use crate::fault::NameFault;
use crate::fields::source_line::source_fault;
use crate::group::roles::Role;
use crate::group::volume::Volume;
use crate::names::{build_name, name_fault};
use dm_table::{LoadFault, LoadKind, Name};
use std::alloc::{AllocError, Global};

/// A hidden layer of a volume, below the visible device.
#[derive(Clone, Copy, Debug, Drop)]
pub(crate) enum Layer {
    /// The layer of an origin, which its snapshots share.
    Real,
    /// The layer of a store, which holds the exceptions of its snapshot.
    Cow,
}

impl Layer {
    /// The word for the layer, which ends its device name.
    fn text(self) -> &'static str
        ensures { result.now ≡ layer_text self }
    {
        match self {
            Layer::Real => "real",
            Layer::Cow => "cow",
        }
    }
}

/// Fails at the first volume for which, or for whose layer, a device name can't be built. Allocates nothing.
pub(crate) fn check_names(group: &str, roles: &[Role], volumes: &[Volume]) -> Result<(), LoadFault>
    ensures { result_err result
        ≡ first_of (flat_map (unnamed_volume group.now) (zip roles.now volumes.now)) }
{
    for (role, volume) in roles.iter().zip(volumes) {
        check_volume(group, *role, volume)?;
    }
    Ok(())
}

/// Fails if a device name can't be built for this volume or for its layer.
#[tactic(auto, unfolding(crate::specs::tables::Tables::unnamed_volume))]
fn check_volume(group: &str, role: Role, volume: &Volume) -> Result<(), LoadFault>
    ensures { result_err result ≡ first_of (unnamed_volume group.now (role, volume.now)) }
{
    match role {
        Role::Plain => check_device(group, volume, None),
        Role::Origin => check_layer(group, volume, Layer::Real),
        Role::Store(_) => check_layer(group, volume, Layer::Cow),
        Role::Record | Role::Clashing => Ok(()),
    }
}

/// Fails if no name can be built for a volume's layer, or for the volume itself.
fn check_layer(group: &str, volume: &Volume, layer: Layer) -> Result<(), LoadFault>
    ensures { result_err result
        ≡ first_of (flat_map (unnamed_layer group.now volume.now) (Some layer ∷ None ∷ [])) }
{
    check_device(group, volume, Some(layer))?;
    check_device(group, volume, None)
}

/// Fails if no name can be built for a volume, or for the given layer of it.
fn check_device(group: &str, volume: &Volume, layer: Option<Layer>) -> Result<(), LoadFault>
    ensures { result_err result ≡ first_of (unnamed_layer group.now volume.now layer) }
{
    if device_name_fault(group, volume.name.as_str(), layer).is_some() {
        return Err(source_fault(LoadKind::Name, volume.line));
    }
    Ok(())
}

/// Why no name can be built for a volume, or for a layer of it; `None` if one can.
fn device_name_fault(group: &str, volume: &str, layer: Option<Layer>) -> Option<NameFault>
    ensures { result ≡ fault_of (device_parts group.now volume.now layer) }
{
    match layer {
        Some(layer) => name_fault(group, volume, Some(layer.text())),
        None => name_fault(group, volume, None),
    }
}

/// The device name of a volume, or of a layer of it; the parts of the name must be valid.
pub(crate) fn name_of(
    alloc: Global,
    group: &str,
    volume: &str,
    layer: Option<Layer>,
) -> Result<Name, AllocError>
    requires { IsNamed group.now volume.now layer }
    ensures { IfOk result (λ name. name ≡ device_name group.now volume.now layer) }
{
    match built_name(alloc, group, volume, layer) {
        Ok(name) => Ok(name),
        // The parts are valid, so the only fault can be that memory ran out.
        Err(_) => Err(AllocError),
    }
}

/// The result of `build_name` for a volume, or for a layer of it.
fn built_name(
    alloc: Global,
    group: &str,
    volume: &str,
    layer: Option<Layer>,
) -> Result<Name, NameFault>
    ensures { Returns result (built (device_parts group.now volume.now layer)) }
{
    match layer {
        Some(layer) => build_name(alloc, group, volume, Some(layer.text())),
        None => build_name(alloc, group, volume, None),
    }
}
