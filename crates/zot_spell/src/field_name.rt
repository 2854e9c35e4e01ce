//! The names of fields.
ghost use Rattle.std.specs.Prelude.{◌≡◌};
ghost use Rattle.zot_spell.specs.Heads.{name_text};

/// The name of a field that replies or requests have.
#[derive(Clone, Copy)]
pub enum FieldName {
    Allow,
    ApiVersion,
    Connection,
    ContentDigest,
    ContentLength,
    ContentRange,
    ContentType,
    FiltersApplied,
    HopCount,
    Host,
    Link,
    Location,
    Range,
    Subject,
    UploadId,
}

impl FieldName {
    /// The name's text.
    #[tactic(auto, unfolding(crate::specs::Heads::name_text))]
    pub fn text(self) -> &'static str
        ensures { result.now ≡ name_text self }
    {
        match self {
            FieldName::Allow => "Allow",
            FieldName::ApiVersion => "Docker-Distribution-Api-Version",
            FieldName::Connection => "Connection",
            FieldName::ContentDigest => "Docker-Content-Digest",
            FieldName::ContentLength => "Content-Length",
            FieldName::ContentRange => "Content-Range",
            FieldName::ContentType => "Content-Type",
            FieldName::FiltersApplied => "OCI-Filters-Applied",
            FieldName::HopCount => "X-Zot-Cluster-Hop-Count",
            FieldName::Host => "Host",
            FieldName::Link => "Link",
            FieldName::Location => "Location",
            FieldName::Range => "Range",
            FieldName::Subject => "OCI-Subject",
            FieldName::UploadId => "Docker-Upload-UUID",
        }
    }
}
