//! How a picture of pages looks: what its file has in it whatever the trace.

/// How bars, cells and words look: on a white page, on a dark one where that is preferred, and white again on paper.
pub(crate) const PAGES_STYLE: &str = "<style>
text{font:13px monospace;fill:#222;paint-order:stroke;stroke:#fff;stroke-width:3px}
.title{font-size:15px;font-weight:bold}
.head{font-weight:bold}
.end{text-anchor:end}
.middle{text-anchor:middle}
.part{text-anchor:middle;font-size:12px;stroke:none}
.useless+.part{stroke:#fff}
.small{text-anchor:middle;font-size:11px;fill:#777}
.faint{fill:#777}
.warn{text-anchor:end;font-weight:bold;fill:#c00}
.page{fill:#fff}
.locks{fill:#e8a33d}
.flags{fill:#f0dc6c}
.barrier{fill:#b5b5b5}
.notices{fill:#d9a0c4}
.fetch,.useful{fill:#7db3e8}
.useless{fill:url(#stripes)}
.under{fill:#fff}
.over{stroke:#c00;stroke-width:4}
.whole{fill:#8fc7a6}
.row{fill:#f0f0f0}
.store{fill:#d05a00}
.load{fill:#1668b4}
.few{fill-opacity:.34}
.some{fill-opacity:.55}
.many{fill-opacity:.78}
.shared{fill:#c00}
@media screen and (prefers-color-scheme:dark){
text{fill:#ddd;stroke:#181818}
.useless+.part{stroke:#181818}
.small,.faint{fill:#999}
.warn{fill:#f66}
.page{fill:#181818}
.locks{fill:#a86a12}
.flags{fill:#877a22}
.barrier{fill:#6a6a6a}
.notices{fill:#93557b}
.fetch,.useful{fill:#2c5f93}
.under{fill:#181818}
.over{stroke:#f66}
.whole{fill:#3d7a57}
.row{fill:#2a2a2a}
.store{fill:#ff8c3a}
.load{fill:#6ab4ff}
.shared{fill:#f66}
}
</style>
<defs>
<pattern id=\"stripes\" width=\"8\" height=\"8\" patternUnits=\"userSpaceOnUse\"><rect class=\"under\" width=\"8\" height=\"8\"/><path class=\"over\" d=\"M-2 2L2 -2M-2 10L10 -2M6 10L10 6\"/></pattern>
<path class=\"shared\" id=\"shared\" d=\"M-6 0L0 -6L6 0L0 6Z\"/>
</defs>
";
