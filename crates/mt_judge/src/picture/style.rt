/// The style of a picture: on paper, on a light screen and on a dark one.
pub(crate) const STYLE: &str = "<style>
svg{background:#fff}
text{font:12px 'DejaVu Sans',Verdana,Arial,sans-serif;fill:#1b1d22}
.title{font-size:17px;font-weight:bold}.sub,.turn,.rest{fill:#5d6470}.turn{text-anchor:end;font-size:10px}
.head{font-weight:bold;font-size:14px}.small{font-size:10px;fill:#5d6470}.mono{font:10px 'DejaVu Sans Mono',Menlo,Consolas,monospace}
.step,.own,.rest{font-family:'DejaVu Sans Mono',Menlo,Consolas,monospace;font-size:11px}
.own{fill:#7b2fb5;font-style:italic}.undue{fill:#9a5b00}.wrong{fill:#c00000;font-weight:bold}
.runs{fill:#fff}.updates{fill:#edf0f6}.sleeps{fill:#d6dce9}
.cd{fill:#3f4d6b}.e{fill:#2e8b57}
.UC{fill:#d6d6d6}.WC{fill:#f7c27a}.WT{fill:#a5dab8}.WP{fill:#f5ea96}.WB,.clean{fill:#a9d0f0}.dirty{fill:#4f8fd0}.buffer{fill:#f7c27a}
.held{fill:#1b1d22;font-size:10px;text-anchor:middle}
.stale{fill:none;stroke:#c00000;stroke-width:2.5}.rule{stroke:#c9ced8}.barrier{stroke:#2b6cb0;stroke-width:2;stroke-dasharray:7 4}
.border{fill:none;stroke:#9aa3b2}
@media (prefers-color-scheme:dark){svg{background:#14161a}text{fill:#e6e8ec}.sub,.turn,.rest,.small{fill:#9aa3b2}
.own{fill:#cf9bff}.undue{fill:#f0b45a}.wrong{fill:#ff7b72}.runs{fill:#14161a}.updates{fill:#20252e}.sleeps{fill:#2d3646}
.cd{fill:#8fa3cc}.e{fill:#5fd08f}.held{fill:#14161a}.stale{stroke:#ff5c52}.rule{stroke:#343b48}.border{stroke:#4a5262}.barrier{stroke:#6fb1f0}}
@media print{svg{background:#fff}}
</style>
";
