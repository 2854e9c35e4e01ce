//! The fields of a configuration.
ghost use Rattle.std.specs.Prelude.{◌≡◌};
ghost use Rattle.std.specs.Str.{bytes_eq};
ghost use Rattle.zot_config.specs.Fields.{name_of, path_of};

/// A field of a configuration.
#[derive(Clone, Copy)]
pub(crate) enum Field {
    Storage,
    Root,
    Dedupe,
    GcDelay,
    Cluster,
    Members,
    HashKey,
    Rounds,
}

impl Field {
    /// Its name in its object.
    #[tactic(auto, unfolding(crate::specs::Fields::name_of))]
    pub fn name(self) -> &'static str
        ensures { result.now ≡ name_of self }
    {
        match self {
            Field::Storage => "storage",
            Field::Root => "root",
            Field::Dedupe => "dedupe",
            Field::GcDelay => "gcDelay",
            Field::Cluster => "cluster",
            Field::Members => "members",
            Field::HashKey => "hashKey",
            Field::Rounds => "rounds",
        }
    }

    /// Its whole path.
    #[tactic(auto, unfolding(crate::specs::Fields::path_of))]
    pub fn path(self) -> &'static str
        ensures { result.now ≡ path_of self }
    {
        match self {
            Field::Storage => "storage",
            Field::Root => "storage.root",
            Field::Dedupe => "storage.dedupe",
            Field::GcDelay => "storage.gcDelay",
            Field::Cluster => "cluster",
            Field::Members => "cluster.members",
            Field::HashKey => "cluster.hashKey",
            Field::Rounds => "rounds",
        }
    }

    /// Whether this is its name.
    pub fn is_named(self, name: &str) -> bool
        ensures { result ≡ bytes_eq name.now (name_of self) }
    {
        name == self.name()
    }
}
