//! The definitions, worked out for some paths.

ghost use Rattle.hub_routes.specs.WorkedPaths.{KindsOfPaths, IdsOfPaths, IdsOfPrefixes};

/// The kinds of some paths by the table.
pub fn sample_paths()
    ensures { KindsOfPaths }
{}

/// The ids and kinds of some paths, with the ids decoded.
pub fn sample_ids()
    ensures { IdsOfPaths }
{}

/// The escapes of a name behind `_design/` or `_local/` are read, and the rest of the id stays as it is.
pub fn prefixes_stay()
    ensures { IdsOfPrefixes }
{}
