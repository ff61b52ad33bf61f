//! The namespaces of a log as their map, which is saved and restored.
ghost use Rattle.std.specs.Prelude.{◌≡◌, None, string_bytes};
ghost use Rattle.warg_crypto.specs.Json.Pairs.{plain_pairs};
ghost use Rattle.warg_operator_log.specs.NamespaceMap.{HasKebabNames, namespace_view};
ghost use Rattle.warg_operator_log.specs.SavedState.{namespaces_case};

use crate::namespace::NamespaceState;
use crate::namespace_map::NamespaceMap;
use warg_maps::NameMap;

impl NamespaceMap {
    /// The namespaces by their names, which are kebab names.
    pub(crate) fn as_map(&self) -> &NameMap<String, NamespaceState>
        ensures kebabs { HasKebabNames self.now }
        ensures named { plain_pairs string_bytes namespace_view result.now.entries ≡ self.now }
    {
        &self.map
    }

    /// The namespaces of the map, whose names have to be kebab names.
    pub(crate) fn restore(namespaces: NameMap<String, NamespaceState>) -> NamespaceMap
        requires { namespaces_case (plain_pairs string_bytes namespace_view namespaces.entries) ≡
            None }
        ensures { result ≡ plain_pairs string_bytes namespace_view namespaces.entries }
    {
        NamespaceMap { map: namespaces }
    }
}
